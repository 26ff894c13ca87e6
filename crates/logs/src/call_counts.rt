// The number of calls before the records of a log, and the check that nothing follows the last record (specification,
// section 9). Each function looks only at the bytes from its place on.
ghost use Rattle.std.specs.Prelude.{◌≡◌};
ghost use Rattle.refusals.specs.Number.{verdict_number};
ghost use Rattle.logs.specs.Records.{count_as_numbers, read_count, tail_fault};

use encoding::{check_due, read_number};
use refusals::{Refusal, refuse_unless};

// The bytes that the call count takes.
pub const CALL_COUNT_BYTES: usize = 2;

// Clause 9.1: how many calls the log contains. The bytes are those after the plan.
pub fn read_count(bytes: &[u8]) -> Result<u16, Refusal>
    ensures { count_as_numbers result ≡ read_count bytes.now }
{
    check_due(CALL_COUNT_BYTES, bytes)?;
    Ok(read_number(&bytes[..CALL_COUNT_BYTES]) as u16)
}

// Clause 9.5: checks the bytes after the last call. If there are any, the log is refused with 2.
pub fn check_tail(bytes: &[u8]) -> Result<(), Refusal>
    ensures { verdict_number result ≡ tail_fault bytes.now }
{
    refuse_unless(bytes.is_empty(), Refusal::Tail)
}
