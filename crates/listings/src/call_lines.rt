// The line of a call and its reply, as bytes in a lent buffer (specification, section 9).
ghost use Rattle.std.specs.Prelude.{◌≡◌, length};
ghost use Rattle.encoding.specs.Buffers.{outcome_as_numbers};
ghost use Rattle.rules.specs.CallNumbers.{call_as_numbers};
ghost use Rattle.rules.specs.Replies.{reply_as_numbers};
ghost use Rattle.listings.specs.PlainLines.{line_as_numbers, line_buffer};
ghost use Rattle.listings.specs.Lines.{letter_of, call_line_by};

use crate::done_lines::done_line;
use crate::lines::refused_line;
use line_fields::{Lead, MaskFormat};
use refusals::Refusal;
use rules::{Call, Reply};

// Clause 9.7: what the line of a call begins with.
fn lead_of(call: Call) -> Lead
    ensures { result
        ≡ record {
          letter = letter_of call;
          processor = (call_as_numbers call).processor;
          tick = (call_as_numbers call).tick;
        } }
{
    match call {
        Call::Issue {
            processor,
            tick,
            ..
        } => Lead {
            letter: b'i',
            processor,
            tick,
        },
        Call::Complete { processor, tick } => Lead {
            letter: b'c',
            processor,
            tick,
        },
        Call::Withdraw { processor, tick } => Lead {
            letter: b'w',
            processor,
            tick,
        },
        Call::Handover {
            processor,
            tick,
            ..
        } => Lead {
            letter: b'h',
            processor,
            tick,
        },
    }
}

// Clauses 9.7 and 9.9: the line of a call, for a plan with the format's number of processors. The digits of masks come
// from a lent table: a loop of calls lends the table of `hex_pairs`.
#[tactic(auto, using(crate::proofs::Fields::done_fields_law, crate::proofs::Fields::refused_fields_law), unfolding(crate::specs::Lines::call_line_by))]
pub fn call_line_by(
    format: MaskFormat<'_>,
    call: Call,
    reply: Reply,
    buffer: &mut [u8],
    at: usize,
) -> Result<usize, Refusal>
    ensures outcome { outcome_as_numbers result
        ≡ line_as_numbers
        (call_line_by format.entry.pairs.now format.entry.processors call (reply_as_numbers reply))
        (length buffer.old) at }
    ensures bytes { buffer.new
        ≡ line_buffer
        (call_line_by format.entry.pairs.now format.entry.processors call (reply_as_numbers reply))
        buffer.old at }
{
    let lead = lead_of(call);
    match reply {
        Ok(done) => done_line(format, lead, done, buffer, at),
        Err(refusal) => refused_line(lead, refusal, buffer, at),
    }
}
