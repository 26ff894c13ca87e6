// Writes a number into a lent buffer, low byte first. Plans, the scratch of reach and registers are written with
// it. Specification, clauses 2.1, 2.12 and 8.1.
ghost use Rattle.std.specs.Prelude.{◌≡◌, length};
ghost use Rattle.refusals.specs.Due.{as_numbers};
ghost use Rattle.encoding.specs.Numbers.{bytes_of};
ghost use Rattle.encoding.specs.Buffers.{room_fault, buffer_after, outcome_as_numbers};

use crate::rooms::check_room;
use refusals::Refusal;

// Stores a number as the bytes of the slice, as many as it has.
// Kept: no `to_le_bytes`, since `write_number` promises its bytes for every size, also above eight.
fn store_number(value: u64, part: &mut [u8])
    ensures { part.new ≡ bytes_of (length part.old) value }
{
    let mut rest = value;
    for byte in part {
        *byte = (rest % 256) as u8;
        rest /= 256;
    }
}

// Writes a number into the buffer as size bytes, from position at. Other bytes stay. Without room it writes nothing.
pub fn write_number(value: u64, size: usize, buffer: &mut [u8], at: usize) -> Result<usize, Refusal>
    ensures outcome { outcome_as_numbers result ≡ as_numbers (room_fault size (length buffer.old) at) size }
    ensures bytes { buffer.new
        ≡ buffer_after (room_fault size (length buffer.old) at) (bytes_of size value) buffer.old at }
{
    check_room(size, buffer.len(), at)?;
    store_number(value, &mut buffer[at..at + size]);
    Ok(size)
}
