// Rows, one mask for each processor, as words in a scratch. A query for one processor's reach stores all rows there.
// Specification, clause 7.4.
ghost use Rattle.std.specs.Prelude.{◌≡◌, ◌≤◌, length, get_or};
ghost use Rattle.std.proofs.lemmas.List.Edits.{sets};
ghost use Rattle.refusals.specs.Due.{as_numbers};
ghost use Rattle.encoding.specs.Buffers.{outcome_as_numbers};
ghost use Rattle.plans.specs.Entries.{mask_size_for};
ghost use Rattle.queries.specs.Words.{word_count, words_of, words_size, words_fault, words_scratch};

use encoding::{check_room, write_number};
use plans::{MAX_PROCESSORS, mask_size};
use refusals::Refusal;

// The most bytes that the words of all rows take: four for each.
pub const MAX_SCRATCH_BYTES: usize = 4 * MAX_PROCESSORS;

// The bits of a byte, and so the processors in a byte of a mask.
const BITS: usize = 8;

// Clause 7.4: the bytes of the words of all rows, on a board with this many processors.
pub fn room_of(processors: u8) -> usize
    ensures { result ≡ words_size (mask_size_for processors) }
{
    let size = mask_size(processors);
    size * (BITS * size)
}

// Kept: a word's size of at most 4 in the clause, as for a mask in `board_list`.
// Stores the rows from the start of the scratch, in words of `size` bytes, one for each processor that has a bit in a
// word.
#[tactic(auto, using(crate::proofs::Words::word_stored), unfolding(encoding::specs::InTurn::in_turn, queries::specs::Words::words_of))]
fn store_rows(size: usize, rows: [u32; MAX_PROCESSORS], scratch: &mut [u8])
    requires { (size ≤ 4) × (words_size size ≤ length scratch.old) }
    ensures { scratch.new ≡ sets scratch.old 0 (words_of size (word_count size) (λ p. get_or rows p 0)) }
{
    for i in 0..BITS * size {
        // There is room, so this is not refused.
        let _ = write_number(u64::from(rows[i]), size, scratch, size * i);
    }
}

// Clause 7.4: writes the rows into the scratch, a word for each, low byte first. The bytes after them stay. Refuses
// with 16 a scratch that is too short, and then writes nothing.
#[tactic(auto, using(crate::proofs::Words::length_words, encoding::proofs::Stores::sets_overwritten))]
pub fn write_rows(
    processors: u8,
    rows: [u32; MAX_PROCESSORS],
    scratch: &mut [u8],
) -> Result<usize, Refusal>
    ensures outcome { outcome_as_numbers result ≡ as_numbers
        (words_fault (mask_size_for processors) scratch.old)
        (words_size (mask_size_for processors)) }
    ensures bytes { scratch.new ≡ words_scratch (mask_size_for processors) rows scratch.old }
{
    let word = mask_size(processors);
    let room = room_of(processors);
    check_room(room, scratch.len(), 0)?;
    store_rows(word, rows, scratch);
    Ok(room)
}
