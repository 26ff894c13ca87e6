// The parts of a board and of a state that are no arrays, read from and stored in the caller's memory.
ghost use Rattle.std.specs.Prelude.{◌≡◌};
ghost use Rattle.c_boards.specs.Parts.{terms_by, phases_by, moment_by};

use rules::{Moment, Phases, Terms};

// The terms, from the counts of processors and of entries and the entries that are writes.
pub fn terms_of(processors: u8, entries: u8, writes: u64) -> Terms
    ensures { result ≡ terms_by processors entries writes }
{
    Terms {
        processors,
        count: entries,
        writes,
    }
}

// The phases, from three words: who waits, who is entitled, who holds.
#[tactic(auto, unfolding(crate::specs::Parts::phases_by))]
pub fn phases_of(words: [u32; 3]) -> Phases
    ensures { result ≡ phases_by words }
{
    Phases {
        waiting: words[0],
        entitled: words[1],
        holding: words[2],
    }
}

// The moment of a state in the caller's memory.
pub fn moment_of(last: u64, words: [u32; 3]) -> Moment
    ensures { result ≡ moment_by last words }
{
    Moment {
        last,
        phases: phases_of(words),
    }
}

// Stores a moment in the caller's memory.
#[tactic(auto, unfolding(crate::specs::Parts::phases_by))]
pub fn store_moment(moment: Moment, last: &mut u64, words: &mut [u32; 3])
    ensures { moment_by last.new words.new ≡ moment }
{
    let phases = moment.phases;
    *last = moment.last;
    *words = [phases.waiting, phases.entitled, phases.holding];
}
