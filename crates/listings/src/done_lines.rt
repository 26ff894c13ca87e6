// The line of an accepted call, as bytes in a lent buffer (specification, section 9). A line is begun only if all of it
// fits. The module `lines` writes the lines of refusals.
ghost use Rattle.std.specs.Prelude.{◌≡◌, length};
ghost use Rattle.encoding.specs.Buffers.{outcome_as_numbers};
ghost use Rattle.listings.specs.PlainLines.{led_line, line_as_numbers, line_buffer};
ghost use Rattle.listings.specs.Lines.{done_by};

use digits::byte_digits;
use line_fields::{Lead, MaskFormat, put_lead, put_line_end, put_masks};
use plans::mask_size;
use refusals::Refusal;
use rules::Done;

// Clauses 9.7 and 9.9: the line of an accepted call.
pub fn done_line(
    format: MaskFormat<'_>,
    lead: Lead,
    done: Done,
    buffer: &mut [u8],
    at: usize,
) -> Result<usize, Refusal>
    ensures outcome { outcome_as_numbers result
        ≡ line_as_numbers (led_line lead (done_by format.entry done)) (length buffer.old) at }
    ensures bytes { buffer.new ≡ line_buffer (led_line lead (done_by format.entry done)) buffer.old at }
{
    let more = 4 + 4 * mask_size(format.processors) + byte_digits(done.late);
    let led = put_lead(lead, more as u8, buffer, at);
    if led == 0 {
        return Err(Refusal::Room);
    }
    let second = at + led;
    let third = second + put_masks(format, done.granted, done.entitled, buffer, second);
    put_line_end(b" ", done.late as u64, buffer, third);
    Ok(led + more)
}
