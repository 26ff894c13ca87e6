// The conditions that the refusals of a call depend on: is the tick in time, is the processor on the board, is its
// request unsatisfied or active; and the first two checks of every call. The phases are those of the requests that
// count. Specification, clause 4.5.
ghost use Rattle.std.specs.Prelude.{◌≡◌, ◌&&◌, leb};
ghost use Rattle.rules.specs.Requests.{unsatisfied, active};
ghost use Rattle.rules.specs.CountedRequests.{has_processor};
ghost use Rattle.refusals.specs.Number.{verdict_number};
ghost use Rattle.refusals.specs.Due.{first_of};
ghost use Rattle.rules.specs.Faults.{tick_fault, processor_fault};

use masks::Mask;
use plans::MAX_PROCESSORS;
use refusals::{Refusal, refuse_unless};
use rules::{Phases, Terms};

// Clause 1.4: the largest tick.
const LAST_TICK: u64 = 1099511627775;

// Clause 4.5: if this is false, the call is refused with 10.
fn is_in_time(last: u64, tick: u64) -> bool
    ensures { result ≡ (leb last tick && leb tick 1099511627775) }
{
    (last <= tick) & (tick <= LAST_TICK)
}

// Clause 4.5: if this is false, the call is refused with 11. A board that was not made from a plan can have more
// processors than a state has places for.
fn is_counted(terms: Terms, processor: u8) -> bool
    ensures { result ≡ has_processor terms processor }
{
    ((processor as usize) < MAX_PROCESSORS) & (processor < terms.processors)
}

// Clause 4.1: the request waits or is entitled.
#[tactic(auto, using(masks::proofs::Places::bit_or_law))]
pub fn is_unsatisfied(phases: Phases, processor: u8) -> bool
    ensures { result ≡ unsatisfied phases processor }
{
    (phases.waiting | phases.entitled).has(processor as u32)
}

// Clause 4.1: the processor has a request, in any phase.
#[tactic(auto, using(masks::proofs::Places::bit_or_law))]
pub fn is_active(phases: Phases, processor: u8) -> bool
    ensures { result ≡ active phases processor }
{
    (phases.waiting | phases.entitled | phases.holding).has(processor as u32)
}

// Clause 4.5: what every call is checked for first: refuses with 10, then with 11.
#[tactic(auto, using(refusals::proofs::Numbers::first_refuses_verdict, refusals::proofs::Numbers::first_accepts_verdict))]
pub fn check_caller(terms: Terms, last: u64, processor: u8, tick: u64) -> Result<(), Refusal>
    ensures { verdict_number result ≡ first_of (tick_fault last tick) (processor_fault terms processor) }
{
    refuse_unless(is_in_time(last, tick), Refusal::Tick)?;
    refuse_unless(is_counted(terms, processor), Refusal::Processor)
}
