// When an issue is refused, and with which number: specification, clause 4.5. The phases are those of the requests that
// count.
ghost use Rattle.std.specs.Prelude.{◌≡◌};
ghost use Rattle.refusals.specs.Number.{verdict_number};
ghost use Rattle.rules.specs.Faults.{issue_fault};

use crate::conditions::{check_caller, is_active};
use refusals::{Refusal, refuse_unless};
use rules::{Phases, Terms};

// Clause 4.5: refuses with 10, 11, 12, 13, in this order. It returns at the first fault, so an accepted call pays only
// for the tests.
#[tactic(auto, using(refusals::proofs::Numbers::first_refuses_verdict, refusals::proofs::Numbers::first_accepts_verdict, refusals::proofs::Numbers::first_assoc), unfolding(rules::specs::Faults::issue_fault))]
pub fn check_issue(
    terms: Terms,
    last: u64,
    phases: Phases,
    processor: u8,
    entry: u8,
    tick: u64,
) -> Result<(), Refusal>
    ensures { verdict_number result ≡ issue_fault terms last phases processor entry tick }
{
    check_caller(terms, last, processor, tick)?;
    refuse_unless(entry < terms.count, Refusal::Entry)?;
    refuse_unless(!is_active(phases, processor), Refusal::Busy)
}
