// The parts of a log after its plan: the call count, the records of the calls, and the end (specification, section 9).
// `replay`, `lockreplay`, `log_input` and `query_listing` use it. They read a log record by record, so each function
// looks only at the bytes from its place on.
#![tactic(auto)]

mod call_counts;
mod record_calls;

ghost use Rattle.std.specs.Prelude.{◌≡◌};
ghost use Rattle.logs.specs.Verbs.{record_as_numbers};
ghost use Rattle.logs.specs.Records.{read_record};

pub use call_counts::{CALL_COUNT_BYTES, check_tail, read_count};
use encoding::{check_due, read_number};
use record_calls::call_by;
use refusals::Refusal;
use rules::Call;

// The bytes that a call's record takes. Its tick begins at the fourth byte.
pub const RECORD_BYTES: usize = 8;

const TICK_PLACE: usize = 3;

// Clause 9.4: the call at the start of the bytes. Refuses with 1, then with 9.
#[tactic(auto, using(refusals::proofs::Numbers::first_refuses_verdict), unfolding(crate::specs::Records::read_record, crate::specs::Records::record_fault))]
pub fn read_record(bytes: &[u8]) -> Result<Call, Refusal>
    ensures { record_as_numbers result ≡ read_record bytes.now }
{
    check_due(RECORD_BYTES, bytes)?;
    let tick = read_number(&bytes[TICK_PLACE..RECORD_BYTES]);
    call_by(bytes[0], bytes[1], bytes[2], tick)
}
