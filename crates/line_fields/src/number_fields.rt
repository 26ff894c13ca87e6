// The fields of a line that are a word and a decimal number, stored in a lent buffer if they fit. The functions `put_*`
// return how many bytes they stored.
ghost use Rattle.std.specs.Prelude.{◌≡◌, ◌+◌, ◌≤◌, length};
ghost use Rattle.std.proofs.lemmas.List.Edits.{sets};
ghost use Rattle.digits.specs.Placed.{placed_size, placed_buffer, field_size, field_buffer};
ghost use Rattle.line_fields.specs.NumberFields.{labelled, last_field};

use digits::put_decimal;
use encoding::has_room;

// The bytes of a word.
#[tactic(auto, using(digits::proofs::Stores::part_copied))]
fn write_word(word: &[u8], buffer: &mut [u8], at: usize)
    requires { at + length word.now ≤ length buffer.old }
    ensures { buffer.new ≡ sets buffer.old at word.now }
{
    buffer[at..at + word.len()].copy_from_slice(word);
}

// A word and a decimal number, stored if both fit with `more` bytes after them. The number goes first, because storing
// it shows whether they fit. It is inlined where the word is known, so that its copy is no call.
#[inline(always)]
fn put_field(word: &[u8], n: u64, more: u16, buffer: &mut [u8], at: usize) -> usize
    ensures size { result
        ≡ placed_size (length (labelled word.now n) + more) (labelled word.now n)
        (length buffer.old) at }
    ensures bytes { buffer.new
        ≡ placed_buffer (length (labelled word.now n) + more) (labelled word.now n)
        buffer.old at }
{
    if has_room(word.len(), buffer.len(), at) {
        let size = put_decimal(n, more, buffer, at + word.len());
        if size == 0 {
            return 0;
        }
        write_word(word, buffer, at);
        word.len() + size
    } else {
        0
    }
}

// A word and a decimal number, stored if both fit.
pub fn put_labelled(word: &[u8], n: u64, buffer: &mut [u8], at: usize) -> usize
    ensures size { result ≡ field_size (labelled word.now n) (length buffer.old) at }
    ensures bytes { buffer.new
        ≡ field_buffer (labelled word.now n) buffer.old at }
{
    put_field(word, n, 0, buffer, at)
}

// The same with a line feed: the end of a line.
#[inline(always)]
pub fn put_line_end(word: &[u8], n: u64, buffer: &mut [u8], at: usize) -> usize
    ensures size { result ≡ field_size (last_field word.now n) (length buffer.old) at }
    ensures bytes { buffer.new
        ≡ field_buffer (last_field word.now n) buffer.old at }
{
    let size = put_field(word, n, 1, buffer, at);
    if size == 0 {
        return 0;
    }
    buffer[at + size] = b'\n';
    size + 1
}
