// The first bytes of a plan: its three counts, each due before it is checked. Specification, clauses 2.2 to 2.5 and
// 2.9.
ghost use Rattle.std.specs.Prelude.{◌≡◌};
ghost use Rattle.refusals.specs.Number.{verdict_number};
ghost use Rattle.plan_bytes.specs.inner.Head.{head_fault};

use encoding::{byte_at, check_due};
use plan_checks::{check_entry_count, check_processors, check_resources};
use plans::PLAN_COUNTS_BYTES;
use refusals::Refusal;

// Clause 2.9: the three counts in the order of their bytes. Refuses with 1 if a count is missing, and with 3 to 5.
#[tactic(auto, using(refusals::proofs::Numbers::first_refuses_verdict, refusals::proofs::Numbers::first_accepts_verdict), unfolding(crate::specs::inner::Head::head_fault))]
pub fn check_head(bytes: &[u8]) -> Result<(), Refusal>
    ensures { verdict_number result ≡ head_fault bytes.now }
{
    check_due(1, bytes)?;
    check_processors(byte_at(bytes, 0))?;
    check_due(2, bytes)?;
    check_resources(byte_at(bytes, 1))?;
    check_due(PLAN_COUNTS_BYTES, bytes)?;
    check_entry_count(byte_at(bytes, 2))
}
