// One entry of a plan: whether it is accepted, and which number it is refused with: 6, 7 or 8.
// Specification, clauses 2.6, 2.7 and 2.9.
ghost use Rattle.std.specs.Prelude.{◌≡◌};
ghost use Rattle.refusals.specs.Number.{verdict_number};
ghost use Rattle.plans.specs.Acceptance.{kind_fault, set_fault, length_fault, entry_fault};

use masks::below64;
use plans::{Entry, is_read, is_write};
use refusals::{Refusal, refuse_unless};

// Clause 2.6: refuses with 6.
pub fn check_kind(entry: Entry) -> Result<(), Refusal>
    ensures { verdict_number result ≡ kind_fault entry }
{
    refuse_unless(is_read(entry) | is_write(entry), Refusal::Kind)
}

// Clause 2.7: refuses with 7 an entry without names, or with a name that is not below the plan's resources.
pub fn check_set(entry: Entry, resources: u8) -> Result<(), Refusal>
    ensures { verdict_number result ≡ set_fault resources entry }
{
    let named = (entry.set != 0) & below64(entry.set, resources as u32);
    refuse_unless(named, Refusal::Set)
}

// Clause 2.7: refuses with 8.
pub fn check_length(entry: Entry) -> Result<(), Refusal>
    ensures { verdict_number result ≡ length_fault entry }
{
    refuse_unless(0 < entry.length, Refusal::Length)
}

// Clause 2.9: an entry of a plan with this many resources, checked for 6, then 7, then 8.
#[tactic(auto, using(refusals::proofs::Numbers::first_refuses_verdict, refusals::proofs::Numbers::first_accepts_verdict), unfolding(plans::specs::Acceptance::entry_fault))]
pub fn check_entry(entry: Entry, resources: u8) -> Result<(), Refusal>
    ensures { verdict_number result ≡ entry_fault resources entry }
{
    check_kind(entry)?;
    check_set(entry, resources)?;
    check_length(entry)
}
