// The lead of a call's line: its tick, its letter and its processor, stored in a lent buffer if the line fits.
// Specification, clause 9.7.
ghost use Rattle.std.specs.Prelude.{◌≡◌, ◌∷◌, ◌+◌, ◌≤◌, length};
ghost use Rattle.std.proofs.lemmas.List.Edits.{sets};
ghost use Rattle.digits.specs.Digits.{decimal};
ghost use Rattle.digits.specs.Placed.{placed_size, placed_buffer};
ghost use Rattle.line_fields.specs.Leads.{lead_field};

use digits::{byte_digits, put_decimal};

// What a call's line begins with: the call's letter, its processor and its tick.
// Kept: the letter is a byte, the one that stands in the line.
#[derive(Clone, Copy)]
pub struct Lead {
    pub letter: u8,
    pub processor: u8,
    pub tick: u64,
}

// A call's letter between spaces, and its processor.
fn write_letter(letter: u8, processor: u8, buffer: &mut [u8], at: usize)
    requires { at + 3 + length (decimal processor) ≤ length buffer.old }
    ensures { buffer.new ≡ sets buffer.old at (32 ∷ letter ∷ 32 ∷ decimal processor) }
{
    buffer[at] = b' ';
    buffer[at + 1] = letter;
    buffer[at + 2] = b' ';
    put_decimal(processor as u64, 0, buffer, at + 3);
}

// The lead of a call's line, stored if it fits with `more` bytes after it: a line is begun only if all of it has room.
// Returns how many bytes it stored.
pub fn put_lead(lead: Lead, more: u8, buffer: &mut [u8], at: usize) -> usize
    ensures size { result
        ≡ placed_size (length (lead_field lead) + more) (lead_field lead) (length buffer.old) at }
    ensures bytes { buffer.new
        ≡ placed_buffer (length (lead_field lead) + more) (lead_field lead) buffer.old at }
{
    let rest = 3 + byte_digits(lead.processor);
    let ticks = put_decimal(lead.tick, (rest + more as usize) as u16, buffer, at);
    if ticks == 0 {
        return 0;
    }
    write_letter(lead.letter, lead.processor, buffer, at + ticks);
    ticks + rest
}
