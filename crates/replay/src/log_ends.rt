// The lines of a log's call count and of its end (specification, section 9). `log_openings` writes the line before
// them, and `run` writes those of the calls between them. Each line is written at the start of a lent buffer.
ghost use Rattle.std.specs.Prelude.{◌≡◌, length};
ghost use Rattle.refusals.specs.Number.{verdict_number};
ghost use Rattle.encoding.specs.Buffers.{outcome_as_numbers};
ghost use Rattle.logs.specs.Records.{count_as_numbers, read_count};
ghost use Rattle.listings.specs.PlainLines.{line_as_numbers, line_buffer};
ghost use Rattle.replay.specs.Ends.{fault_line, count_line, end_fault, end_line};

use listings::refusal_line;
use logs::{check_tail, read_count, read_record};
use refusals::Refusal;

// How many calls follow, or the refusal; and the line of the refusal.
#[derive(Clone, Copy)]
pub struct CallCount {
    pub calls: Result<u16, Refusal>,
    pub line: Result<usize, Refusal>,
}

// ---- before the calls

// The line of a refusal, and no line if there is no refusal.
fn verdict_line(verdict: Result<(), Refusal>, out: &mut [u8]) -> Result<usize, Refusal>
    ensures outcome { outcome_as_numbers result ≡ line_as_numbers (fault_line (verdict_number verdict)) (length out.old) 0 }
    ensures written { out.new ≡ line_buffer (fault_line (verdict_number verdict)) out.old 0 }
{
    match verdict {
        Ok(()) => Ok(0),
        Err(refusal) => refusal_line(refusal, out, 0),
    }
}

// Reads the call count at the start of the bytes after the plan. If it is refused, the line of the refusal is written
// at the start of `out`.
pub fn count(bytes: &[u8], out: &mut [u8]) -> CallCount
    ensures calls { count_as_numbers result.calls ≡ read_count bytes.now }
    ensures line { outcome_as_numbers result.line ≡ line_as_numbers (count_line bytes.now) (length out.old) 0 }
    ensures written { out.new ≡ line_buffer (count_line bytes.now) out.old 0 }
{
    let calls = read_count(bytes);
    let line = verdict_line(calls.map(|_| ()), out);
    CallCount { calls, line }
}

// ---- after the calls

// The refusal of the bytes at the end of the input: a call is due, or there is a byte after the last call.
#[tactic(auto, using(refusals::proofs::Numbers::number_not_zero), unfolding(crate::specs::Ends::end_fault, logs::specs::Records::read_record))]
fn end_fault(left: u16, bytes: &[u8]) -> Result<(), Refusal>
    ensures { verdict_number result ≡ end_fault left bytes.now }
{
    if left == 0 {
        return check_tail(bytes);
    }
    read_record(bytes)?;
    Ok(())
}

// The line that ends the listing, if any. The input has ended with less than a record left over, or no call is left.
pub fn finish(left: u16, bytes: &[u8], out: &mut [u8]) -> Result<usize, Refusal>
    ensures outcome { outcome_as_numbers result ≡ line_as_numbers (end_line left bytes.now) (length out.old) 0 }
    ensures written { out.new ≡ line_buffer (end_line left bytes.now) out.old 0 }
{
    verdict_line(end_fault(left, bytes), out)
}
