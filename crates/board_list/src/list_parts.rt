// A processor's part of the list, stored in a lent buffer. The module `list_writer` writes the parts of all processors.
// Specification, clause 7.7.
ghost use Rattle.std.specs.Prelude.{◌≡◌, ◌+◌, ◌≤◌, length};
ghost use Rattle.std.proofs.lemmas.List.Edits.{sets};
ghost use Rattle.encoding.specs.Numbers.{bytes_of};
ghost use Rattle.board_list.specs.Fields.{phase_number};
ghost use Rattle.board_list.specs.Sizes.{part_size};
ghost use Rattle.board_list.specs.Parts.{part_bytes};

use crate::list_sizes::PART_FIXED_BYTES;
use crate::phases::Phase;
use encoding::write_number;

// What the list shows of a processor.
#[derive(Clone, Copy)]
pub struct Part {
    pub phase: Phase,
    pub entry: u8,
    pub waited: u32,
    pub waits: u32,
}

// Stores the low size bytes of a number from position at.
// Kept: a mask's size of at most 4 in the clauses. A type for it would be made from `mask_size` and taken apart at once.
#[tactic(auto, using(crate::proofs::list_parts::Stores::low_stored))]
fn store_low(size: usize, number: u32, buffer: &mut [u8], at: usize)
    requires { (size ≤ 4) × (at + size ≤ length buffer.old) }
    ensures { buffer.new ≡ sets buffer.old at (bytes_of size number) }
{
    buffer[at..at + size].copy_from_slice(&number.to_le_bytes()[..size]);
}

// Stores a mask as size bytes from position at. Two bytes, the size for up to 16 processors, are stored without a loop.
// For `store_low` of a size that is no constant the compiled code would call memcpy, which the archive for C does without.
fn store_mask(size: usize, mask: u32, buffer: &mut [u8], at: usize)
    requires { at + size ≤ length buffer.old }
    ensures { buffer.new ≡ sets buffer.old at (bytes_of size mask) }
{
    if size == 2 {
        store_low(2, mask, buffer, at);
    } else {
        let _ = write_number(u64::from(mask), size, buffer, at);
    }
}

// Stores a processor's part from position at, with its direct waits as size bytes.
#[tactic(auto, using(crate::proofs::list_parts::Stores::part_stores))]
pub fn store_part(size: usize, part: Part, buffer: &mut [u8], at: usize)
    requires { (size ≤ 4) × (at + part_size size ≤ length buffer.old) }
    ensures { buffer.new ≡ sets buffer.old at
        (part_bytes size (phase_number part.phase) part.entry part.waited part.waits) }
{
    buffer[at] = u8::from(part.phase);
    buffer[at + 1] = part.entry;
    store_low(4, part.waited, buffer, at + 2);
    store_mask(size, part.waits, buffer, at + PART_FIXED_BYTES);
}
