// When a query about one processor is refused. Specification, clause 7.5. The crate `reach` also checks its scratch.
ghost use Rattle.std.specs.Prelude.{◌≡◌};
ghost use Rattle.refusals.specs.Number.{verdict_number};
ghost use Rattle.rules.specs.Faults.{processor_fault};

use plans::MAX_PROCESSORS;
use refusals::{Refusal, refuse_unless};
use rules::Terms;

// Clause 7.5: refuses with 11 a processor that is not the plan's.
// Kept: the comparison that `call_checks` makes too. It is one line in each, and what they refuse differs.
pub fn check_processor(terms: Terms, processor: u8) -> Result<(), Refusal>
    ensures { verdict_number result ≡ processor_fault terms processor }
{
    refuse_unless(
        processor < MAX_PROCESSORS as u8 && processor < terms.processors,
        Refusal::Processor,
    )
}
