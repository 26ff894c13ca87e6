// The first line of a listing from plain numbers, as bytes in a lent buffer. Its length is computed first, so that a
// buffer that is too short is refused before a byte is written.
ghost use Rattle.std.specs.Prelude.{◌≡◌, [], ◌∷◌, ◌+◌, ◌≤◌, length};
ghost use Rattle.std.proofs.lemmas.List.Edits.{sets};
ghost use Rattle.encoding.specs.Buffers.{outcome_as_numbers};
ghost use Rattle.digits.specs.Digits.{decimal};
ghost use Rattle.listings.specs.PlainLines.{entries_word, read_word, write_word, further_fields};
ghost use Rattle.listings.specs.PlainLines.{line_as_numbers, line_buffer};
ghost use Rattle.listings.specs.FirstNumbers.{digits_in, first_numbers_line};

use digits::digit_count;
use encoding::has_room;
use line_fields::{put_labelled, put_line_end};
use refusals::Refusal;

// The numbers of the first line: a plan's three counts, and its two figures.
#[derive(Clone, Copy)]
pub struct FirstNumbers {
    pub processors: u8,
    pub resources: u8,
    pub count: u8,
    pub read: u32,
    pub write: u32,
}

// The second half of the first line: the words `entries`, `read` and `write`, and their numbers.
fn write_figures(numbers: FirstNumbers, buffer: &mut [u8], at: usize)
    requires { at + 23
        + (length (decimal numbers.count) + length (decimal numbers.read) + length (decimal numbers.write))
        ≤ length buffer.old }
    ensures { buffer.new
        ≡ sets buffer.old at
        (further_fields
        (entries_word ∷ decimal numbers.count ∷ read_word ∷ decimal numbers.read
        ∷ write_word ∷ decimal numbers.write ∷ [])) }
{
    let second = at + put_labelled(b" entries ", numbers.count as u64, buffer, at);
    let third = second + put_labelled(b" read ", numbers.read as u64, buffer, second);
    put_line_end(b" write ", numbers.write as u64, buffer, third);
}

// The first line from its numbers.
fn write_first(numbers: FirstNumbers, buffer: &mut [u8], at: usize)
    requires { at + 45 + digits_in numbers ≤ length buffer.old }
    ensures { buffer.new ≡ sets buffer.old at (first_numbers_line numbers) }
{
    let second = at + put_labelled(b"processors ", numbers.processors as u64, buffer, at);
    let third = second + put_labelled(b" resources ", numbers.resources as u64, buffer, second);
    write_figures(numbers, buffer, third);
}

// How many bytes the first line takes.
fn first_size(numbers: FirstNumbers) -> usize
    ensures is { result ≡ 45 + digits_in numbers }
    ensures most { result ≤ 145 }
{
    let counts = digit_count(numbers.processors as u64)
        + digit_count(numbers.resources as u64)
        + digit_count(numbers.count as u64);
    45 + (counts + digit_count(numbers.read as u64) + digit_count(numbers.write as u64))
}

// Clause 9.6: the first line, for any numbers.
pub fn numbers_line(numbers: FirstNumbers, buffer: &mut [u8], at: usize) -> Result<usize, Refusal>
    ensures outcome { outcome_as_numbers result
        ≡ line_as_numbers (first_numbers_line numbers) (length buffer.old) at }
    ensures bytes { buffer.new ≡ line_buffer (first_numbers_line numbers) buffer.old at }
{
    let needed = first_size(numbers);
    if has_room(needed, buffer.len(), at) {
        write_first(numbers, buffer, at);
        Ok(needed)
    } else {
        Err(Refusal::Room)
    }
}
