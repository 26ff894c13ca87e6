// The lines of refusals, as bytes in a lent buffer (specification, section 9): of a refused call, and of a fault in the
// bytes. A line is begun only if all of it fits. The module `done_lines` writes the line of an accepted call, and
// `first_lines` the first line of a listing.
ghost use Rattle.std.specs.Prelude.{◌≡◌, length};
ghost use Rattle.refusals.specs.Number.{number_of};
ghost use Rattle.encoding.specs.Buffers.{outcome_as_numbers};
ghost use Rattle.listings.specs.PlainLines.{refusal_line, led_line, refused_fields, line_as_numbers, line_buffer};

use digits::byte_digits;
use line_fields::{Lead, put_lead, put_line_end};
use refusals::Refusal;

// Clause 9.7: the line of a call that is refused.
pub fn refused_line(
    lead: Lead,
    refusal: Refusal,
    buffer: &mut [u8],
    at: usize,
) -> Result<usize, Refusal>
    ensures outcome { outcome_as_numbers result
        ≡ line_as_numbers (led_line lead (refused_fields (number_of refusal))) (length buffer.old) at }
    ensures bytes { buffer.new ≡ line_buffer (led_line lead (refused_fields (number_of refusal))) buffer.old at }
{
    let number = u8::from(refusal);
    let more = 10 + byte_digits(number);
    let led = put_lead(lead, more as u8, buffer, at);
    if led == 0 {
        return Err(Refusal::Room);
    }
    put_line_end(b" refused ", number as u64, buffer, at + led);
    Ok(led + more)
}

// Clause 9.8: the line of a fault in the bytes.
pub fn refusal_line(refusal: Refusal, buffer: &mut [u8], at: usize) -> Result<usize, Refusal>
    ensures outcome { outcome_as_numbers result ≡ line_as_numbers (refusal_line (number_of refusal)) (length buffer.old) at }
    ensures bytes { buffer.new ≡ line_buffer (refusal_line (number_of refusal)) buffer.old at }
{
    let number = u8::from(refusal);
    let size = put_line_end(b"refused ", number as u64, buffer, at);
    if size == 0 {
        Err(Refusal::Room)
    } else {
        Ok(size)
    }
}

// How many bytes a line took, or 0 if there was no room.
pub fn line_size(line: Result<usize, Refusal>) -> usize
    ensures { result ≡ (outcome_as_numbers line).value }
{
    line.unwrap_or(0)
}
