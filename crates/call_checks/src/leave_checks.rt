// When a completion or a withdrawal is refused, and with which number, of 10, 11, 14, 15 and 17: specification,
// clause 4.5. The phases are those of the requests that count.
ghost use Rattle.std.specs.Prelude.{◌≡◌};
ghost use Rattle.refusals.specs.Number.{verdict_number};
ghost use Rattle.refusals.specs.Due.{due, first_of};
ghost use Rattle.rules.specs.Requests.{active};
ghost use Rattle.rules.specs.Faults.{tick_fault, processor_fault, complete_fault, withdraw_fault};

use crate::conditions::{check_caller, is_active, is_unsatisfied};
use masks::Mask;
use refusals::{Refusal, refuse_unless};
use rules::{Phases, Terms};

// Clause 4.5, for a call that removes the processor's request: refuses with 10, 11, 14, in this order.
#[tactic(auto, using(refusals::proofs::Numbers::first_refuses_verdict, refusals::proofs::Numbers::first_accepts_verdict))]
fn check_leaver(
    terms: Terms,
    last: u64,
    phases: Phases,
    processor: u8,
    tick: u64,
) -> Result<(), Refusal>
    ensures { verdict_number result ≡ first_of (first_of (tick_fault last tick) (processor_fault terms processor))
        (due (active phases processor) 14) }
{
    check_caller(terms, last, processor, tick)?;
    refuse_unless(is_active(phases, processor), Refusal::Idle)
}

// Clause 4.5: refuses with 10, 11, 14, 15, in this order.
#[tactic(auto, using(refusals::proofs::Numbers::first_refuses_verdict, refusals::proofs::Numbers::first_accepts_verdict, refusals::proofs::Numbers::first_assoc), unfolding(rules::specs::Faults::complete_fault))]
pub fn check_complete(
    terms: Terms,
    last: u64,
    phases: Phases,
    processor: u8,
    tick: u64,
) -> Result<(), Refusal>
    ensures { verdict_number result ≡ complete_fault terms last phases processor tick }
{
    check_leaver(terms, last, phases, processor, tick)?;
    refuse_unless(!is_unsatisfied(phases, processor), Refusal::Unheld)
}

// Clause 4.5: refuses with 10, 11, 14, 17, in this order.
#[tactic(auto, using(refusals::proofs::Numbers::first_refuses_verdict, refusals::proofs::Numbers::first_accepts_verdict, refusals::proofs::Numbers::first_assoc), unfolding(rules::specs::Faults::withdraw_fault))]
pub fn check_withdraw(
    terms: Terms,
    last: u64,
    phases: Phases,
    processor: u8,
    tick: u64,
) -> Result<(), Refusal>
    ensures { verdict_number result ≡ withdraw_fault terms last phases processor tick }
{
    check_leaver(terms, last, phases, processor, tick)?;
    refuse_unless(!phases.holding.has(processor as u32), Refusal::Held)
}
