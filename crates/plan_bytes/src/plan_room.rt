// Whether a plan can be written at a position of a lent buffer: the reader would accept it, and there is room for its
// bytes. Specification, clauses 2.12 and 8.2.
ghost use Rattle.std.specs.Prelude.{◌≡◌};
ghost use Rattle.refusals.specs.Number.{verdict_number};
ghost use Rattle.refusals.specs.Due.{first_of};
ghost use Rattle.encoding.specs.Buffers.{room_fault};
ghost use Rattle.plans.specs.Acceptance.{plan_fault};

use encoding::check_room;
use plans::Plan;
use refusals::Refusal;

// Clause 8.2: refuses first with 3 to 8 for the plan, then with 16 if the buffer has no room for the bytes needed.
#[tactic(auto, using(refusals::proofs::Numbers::first_refuses_verdict, refusals::proofs::Numbers::first_accepts_verdict))]
pub fn check_writing(plan: Plan, needed: usize, size: usize, at: usize) -> Result<(), Refusal>
    ensures { verdict_number result ≡ first_of (plan_fault plan) (room_fault needed size at) }
{
    plan_checks::check(plan)?;
    check_room(needed, size, at)
}
