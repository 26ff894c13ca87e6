// What the list shows of a processor besides its state and its direct waits: the entry that is shown for it, and the
// ticks that it has waited. Specification, clause 7.8.
ghost use Rattle.std.specs.Prelude.{◌≡◌, cond, ◌-◌, min};
ghost use Rattle.rules.specs.Requests.{unsatisfied, active};

use masks::Mask;
use rules::Phases;

// The entry that is shown for an idle processor. Clause 7.8 gives the number.
const NO_ENTRY: u8 = 255;

// Clause 7.8: the entry that is shown for processor p, whose request asks for this one.
#[tactic(auto, using(masks::proofs::Places::bit_or_law))]
pub fn entry_at(phases: Phases, entry: u8, p: u32) -> u8
    ensures { result ≡ cond (active phases p) entry 255 }
{
    if (phases.waiting | phases.entitled | phases.holding).has(p) {
        entry
    } else {
        NO_ENTRY
    }
}

// The ticks from one tick to the other, but no more than four bytes can show. Clause 4.10: 0 if the time would run
// backwards.
fn ticks_shown(from: u64, to: u64) -> u32
    ensures { result ≡ min 4294967295 (to - from) }
{
    u32::try_from(to.saturating_sub(from)).unwrap_or(u32::MAX)
}

// Clause 7.8: the ticks that processor p has waited, if its request was issued at `since`.
#[tactic(auto, using(masks::proofs::Places::bit_or_law))]
pub fn waited_at(phases: Phases, last: u64, since: u64, p: u32) -> u32
    ensures { result ≡ cond (unsatisfied phases p) (min 4294967295 (last - since)) 0 }
{
    if (phases.waiting | phases.entitled).has(p) {
        ticks_shown(since, last)
    } else {
        0
    }
}
