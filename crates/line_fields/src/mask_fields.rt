// The two masks of a call's line in hexadecimal digits, stored in a lent buffer if they fit.
ghost use Rattle.std.specs.Prelude.{◌≡◌, ◌+◌, ◌*◌, ◌≤◌, length, get_or};
ghost use Rattle.std.proofs.lemmas.List.Edits.{sets};
ghost use Rattle.encoding.specs.Numbers.{bytes_of};
ghost use Rattle.plans.specs.Entries.{mask_size_for};
ghost use Rattle.digits.specs.Digits.{mask_by};
ghost use Rattle.digits.specs.Placed.{field_size, field_buffer};
ghost use Rattle.digits.specs.inner.Stored.{Stored};
ghost use Rattle.line_fields.specs.MaskFields.{mask_field, masks_in};

use digits::pair_at;
use encoding::has_room;
use plans::mask_size;

// How masks are written: with the pairs of digits of every byte, and with digits for so many processors.
#[derive(Clone, Copy)]
pub struct MaskFormat<'a> {
    pub pairs: &'a [u16],
    pub processors: u8,
}

// Two digits in one number, the first in its low byte.
#[tactic(auto, using(digits::proofs::Stores::part_copied), unfolding(encoding::specs::Numbers::bytes_of))]
fn write_pair(pair: u16, buffer: &mut [u8], at: usize)
    requires { at + 2 ≤ length buffer.old }
    ensures { buffer.new ≡ sets buffer.old at (bytes_of 2 pair) }
{
    buffer[at..at + 2].copy_from_slice(&pair.to_le_bytes());
}

// The two digits of a byte, from a table of pairs.
fn write_byte(pairs: &[u16], byte: u8, buffer: &mut [u8], at: usize)
    requires { at + 2 ≤ length buffer.old }
    ensures { buffer.new ≡ sets buffer.old at (bytes_of 2 (get_or pairs.now byte 0)) }
{
    write_pair(pair_at(pairs, byte), buffer, at)
}

// The four digits of a mask's two low bytes.
fn write_half(pairs: &[u16], mask: u32, buffer: &mut [u8], at: usize) -> usize
    requires { at + 4 ≤ length buffer.old }
    ensures { Stored (mask_by pairs.now 2 mask) buffer.old at result buffer.new }
{
    write_byte(pairs, (mask / 256 % 256) as u8, buffer, at);
    write_byte(pairs, (mask % 256) as u8, buffer, at + 2);
    at + 4
}

// A space and the digits of a mask, byte by byte. How many digits depends on the plan's processors, not on the mask.
fn write_mask(format: MaskFormat<'_>, mask: u32, buffer: &mut [u8], at: usize) -> usize
    requires { at + 1 + 2 * mask_size_for format.processors ≤ length buffer.old }
    ensures { Stored (mask_field format.entry.pairs.now (mask_size_for format.entry.processors) mask)
        buffer.old at result buffer.new }
{
    buffer[at] = b' ';
    let size = mask_size(format.processors);
    if size == 2 {
        write_half(format.pairs, mask, buffer, at + 1)
    } else {
        let next = write_half(format.pairs, mask / 65536, buffer, at + 1);
        write_half(format.pairs, mask, buffer, next)
    }
}

// Both masks, stored if they fit. Returns how many bytes it stored.
pub fn put_masks(
    format: MaskFormat<'_>,
    granted: u32,
    entitled: u32,
    buffer: &mut [u8],
    at: usize,
) -> usize
    ensures size { result ≡ field_size (masks_in format.entry granted entitled) (length buffer.old) at }
    ensures bytes { buffer.new ≡ field_buffer (masks_in format.entry granted entitled) buffer.old at }
    ensures most { result ≤ 18 }
{
    let needed = 2 + 4 * mask_size(format.processors);
    if has_room(needed, buffer.len(), at) {
        let next = write_mask(format, granted, buffer, at);
        write_mask(format, entitled, buffer, next);
        needed
    } else {
        0
    }
}
