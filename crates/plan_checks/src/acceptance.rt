// Which plan values are accepted, and which number the others are refused with: 3 to 8. Specification, section 2.
ghost use Rattle.std.specs.Prelude.{◌≡◌, ◌≤◌, take};
ghost use Rattle.refusals.specs.Number.{verdict_number};
ghost use Rattle.plans.specs.Entries.{max_entries};
ghost use Rattle.plans.specs.Acceptance.{entries_fault, plan_fault};

use crate::plan_counts::check_counts;
use crate::plan_entries::check_entry;
use plans::{Entry, MAX_ENTRIES, Plan};
use refusals::Refusal;

// The first fault of the counted entries, in their order.
fn check_entries(entries: [Entry; MAX_ENTRIES], count: u8, resources: u8) -> Result<(), Refusal>
    requires { count ≤ max_entries }
    ensures { verdict_number result ≡ entries_fault resources (take count entries) }
{
    for entry in &entries[..count as usize] {
        check_entry(*entry, resources)?;
    }
    Ok(())
}

// Clause 2.10: refuses a plan value with the reader's number. A count above 64 is refused before any entry is checked.
#[tactic(auto, using(refusals::proofs::Numbers::first_refuses_verdict, refusals::proofs::Numbers::first_accepts_verdict, plans::proofs::Faults::counts_at_most), unfolding(plans::specs::Acceptance::plan_fault))]
pub fn check(plan: Plan) -> Result<(), Refusal>
    ensures { verdict_number result ≡ plan_fault plan }
{
    check_counts(plan.processors, plan.resources, plan.count)?;
    check_entries(plan.entries, plan.count, plan.resources)
}
