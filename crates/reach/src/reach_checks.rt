// When a reach query is refused. Specification, clauses 7.4 and 7.5.
ghost use Rattle.std.specs.Prelude.{◌≡◌};
ghost use Rattle.refusals.specs.Number.{verdict_number};
ghost use Rattle.refusals.specs.Due.{first_of};
ghost use Rattle.encoding.specs.Buffers.{room_fault};
ghost use Rattle.rules.specs.Faults.{processor_fault};
ghost use Rattle.queries.specs.Queries.{scratch_size};

use crate::row_words::room_of;
use encoding::check_room;
use queries::check_processor;
use refusals::Refusal;
use rules::Terms;

// Refuses with 11, then with 16 a scratch that is too short.
pub fn check_reach(terms: Terms, processor: u8, size: usize) -> Result<(), Refusal>
    ensures { verdict_number result
        ≡ first_of (processor_fault terms processor) (room_fault (scratch_size terms.processors) size 0) }
{
    check_processor(terms, processor)?;
    check_room(room_of(terms.processors), size, 0)
}
