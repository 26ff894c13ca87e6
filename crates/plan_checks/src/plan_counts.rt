// The three counts of a plan: which are accepted, and which number the others are refused with: 3, 4 and 5.
// Specification, clauses 2.3 to 2.5.
ghost use Rattle.std.specs.Prelude.{◌≡◌};
ghost use Rattle.refusals.specs.Number.{verdict_number};
ghost use Rattle.plans.specs.Acceptance.{processors_fault, resources_fault, count_fault, counts_fault};

use plans::{MAX_ENTRIES, MAX_PROCESSORS, MAX_RESOURCES};
use refusals::{Refusal, refuse_unless};

// Clause 2.3: refuses with 3.
pub fn check_processors(count: u8) -> Result<(), Refusal>
    ensures { verdict_number result ≡ processors_fault count }
{
    refuse_unless(
        (1 <= count) & (count <= MAX_PROCESSORS as u8),
        Refusal::Processors,
    )
}

// Clause 2.4: refuses with 4.
pub fn check_resources(count: u8) -> Result<(), Refusal>
    ensures { verdict_number result ≡ resources_fault count }
{
    refuse_unless(
        (1 <= count) & (count <= MAX_RESOURCES as u8),
        Refusal::Resources,
    )
}

// Clause 2.5: refuses with 5.
pub fn check_entry_count(count: u8) -> Result<(), Refusal>
    ensures { verdict_number result ≡ count_fault count }
{
    refuse_unless(
        (1 <= count) & (count <= MAX_ENTRIES as u8),
        Refusal::Entries,
    )
}

// The three counts in the order of their bytes.
#[tactic(auto, using(refusals::proofs::Numbers::first_refuses_verdict, refusals::proofs::Numbers::first_accepts_verdict), unfolding(plans::specs::Acceptance::counts_fault))]
pub fn check_counts(processors: u8, resources: u8, count: u8) -> Result<(), Refusal>
    ensures { verdict_number result ≡ counts_fault processors resources count }
{
    check_processors(processors)?;
    check_resources(resources)?;
    check_entry_count(count)
}
