// How many bytes to wait for when a log arrives in pieces. Specification, clause 9.10.
ghost use Rattle.std.specs.Prelude.{◌≡◌};
ghost use Rattle.log_input.specs.Stages.{is_short, due_size};

use logs::RECORD_BYTES;
use refusals::Refusal;

// Whether more bytes of a plan are needed: the bytes so far are refused for that reason alone.
pub fn is_short(bytes: &[u8]) -> bool
    ensures { result ≡ is_short bytes.now }
{
    matches!(plan_bytes::read(bytes), Err(Refusal::Short))
}

// How many bytes to wait for with this number of calls left: a record, or a single byte after the last call.
pub fn due_size(left: u16) -> usize
    ensures { result ≡ due_size left }
{
    if left == 0 { 1 } else { RECORD_BYTES }
}
