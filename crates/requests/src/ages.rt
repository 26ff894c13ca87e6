// What a state keeps for each processor's request in addition to its phase: who is earlier, and since when it holds or
// waits. A processor that a state has no place for changes nothing. Specification, clauses 4.2 and 4.8.
ghost use Rattle.std.specs.Prelude.{◌≡◌, cond, not, eqb, get_or};
ghost use Rattle.std.specs.Int.Bits.{bit_and};
ghost use Rattle.masks.specs.Sets.{bit, mask_of};
ghost use Rattle.plans.specs.Entries.{max_processors};
ghost use Rattle.masks.specs.Tabulation.{tabulate};
ghost use Rattle.rules.specs.Acts.{put_last};

use crate::stores::store;
use masks::{EachPlace, remove32};
use plans::MAX_PROCESSORS;
use rules::Phases;
use settling::ALL;

// Every processor but this one.
pub fn all_but(processor: u8) -> u32
    ensures { result ≡ mask_of max_processors (λ q. not (eqb q processor)) }
{
    remove32(ALL, processor as u32)
}

// Each set with only the places that are kept.
fn keep_each(sets: &mut [u32; MAX_PROCESSORS], keep: u32)
    ensures { sets.new ≡ tabulate max_processors (λ q. bit_and (get_or sets.old q 0) keep) }
{
    for set in sets {
        *set &= keep;
    }
}

// All active requests are earlier than the processor's new request, and it is earlier than none.
#[inline(always)]
pub fn put_last(earlier: &mut [u32; MAX_PROCESSORS], phases: Phases, processor: u8)
    ensures { earlier.new ≡ put_last earlier.old phases processor }
{
    keep_each(earlier, all_but(processor));
    store(
        earlier,
        processor,
        phases.waiting | phases.entitled | phases.holding,
    );
}

// Stores this tick for the processors in the mask.
pub fn stamp(since: &mut [u64; MAX_PROCESSORS], among: u32, tick: u64)
    ensures { since.new
        ≡ tabulate max_processors (λ p. cond (bit among p) tick (get_or since.old p 0)) }
{
    for p in EachPlace(among) {
        since[p as usize] = tick;
    }
}
