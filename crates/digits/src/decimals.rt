// Stores the digits of a decimal number in a lent buffer if they fit. Specification, clause 9.9.
ghost use Rattle.std.specs.Prelude.{◌≡◌, [], ◌∷◌, ◌+◌, ◌/◌, ◌%◌, ◌≤◌, ◌<◌, length};
ghost use Rattle.std.proofs.lemmas.List.Edits.{sets};
ghost use Rattle.digits.specs.Digits.{decimal};
ghost use Rattle.digits.specs.Placed.{placed_size, placed_buffer};

use crate::digit_count;
use encoding::has_room;

// The two digits of a number below 100. The first is 0 if the number is below 10.
fn write_two(n: u64, buffer: &mut [u8], at: usize)
    requires { (n < 100) × (at + 2 ≤ length buffer.old) }
    ensures { buffer.new ≡ sets buffer.old at ((48 + n / 10) ∷ (48 + n % 10) ∷ []) }
{
    buffer[at] = b'0' + (n / 10) as u8;
    buffer[at + 1] = b'0' + (n % 10) as u8;
}

// A number below 100, without a leading 0.
#[tactic(auto, using(crate::proofs::DecimalDigits::decimal_one, crate::proofs::DecimalDigits::decimal_two, crate::proofs::DecimalDigits::length_one, crate::proofs::DecimalDigits::length_two))]
fn write_lead(n: u64, buffer: &mut [u8], at: usize)
    requires { (n < 100) × (at + length (decimal n) ≤ length buffer.old) }
    ensures { buffer.new ≡ sets buffer.old at (decimal n) }
{
    if 9 < n {
        write_two(n, buffer, at);
    } else {
        buffer[at] = b'0' + n as u8;
    }
}

// A decimal number of size digits, stored two digits at a time, the last ones first.
fn write_digits(n: u64, size: usize, buffer: &mut [u8], at: usize)
    requires { (size ≡ length (decimal n)) × (at + size ≤ length buffer.old) }
    ensures { buffer.new ≡ sets buffer.old at (decimal n) }
{
    let mut rest = n;
    let mut left = size;
    while 99 < rest {
        left -= 2;
        write_two(rest % 100, buffer, at + left);
        rest /= 100;
    }
    write_lead(rest, buffer, at);
}

// A decimal number, stored if it fits with `more` bytes after it: a field is begun only if all of it has room. Returns
// how many bytes it stored.
#[tactic(auto, using(encoding::proofs::Stores::sets_overwritten))]
pub fn put_decimal(n: u64, more: u16, buffer: &mut [u8], at: usize) -> usize
    ensures size { result ≡ placed_size (length (decimal n) + more) (decimal n) (length buffer.old) at }
    ensures bytes { buffer.new ≡ placed_buffer (length (decimal n) + more) (decimal n) buffer.old at }
{
    let size = digit_count(n);
    if has_room(size + more as usize, buffer.len(), at) {
        write_digits(n, size, buffer, at);
        size
    } else {
        0
    }
}
