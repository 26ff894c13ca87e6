// Numbers as ASCII digits: decimal numbers stored in a lent buffer, the table of the hexadecimal digits of every byte,
// and how many digits a number has. `line_fields`, `listings` and `replay` use it to write listing lines.
// Kept: no `write!`, since its contract gives no bytes at a place of a lent buffer, and the table of 256 pairs is a named
// form. 0 says that nothing was stored, as the definition `placed_size` has it.
#![tactic(auto)]

mod decimals;
mod tables;

ghost use Rattle.std.specs.Prelude.{◌≡◌, ◌≤◌, ◌<◌, length, get_or};
ghost use Rattle.digits.specs.Digits.{decimal, hex_pairs};

pub use decimals::put_decimal;
use tables::HEX_PAIRS;

// Clause 9.9: the table of the two hexadecimal digits of every byte. A constant is stored again wherever it is named,
// so a caller that writes many lines gets the table once and lends it.
pub fn hex_pairs() -> [u16; 256]
    ensures { result ≡ hex_pairs }
{
    HEX_PAIRS
}

// The element of a table of pairs for a byte, or 0 past its end.
pub fn pair_at(pairs: &[u16], byte: u8) -> u16
    ensures { result ≡ get_or pairs.now byte 0 }
{
    pairs.get(byte as usize).copied().unwrap_or(0)
}

// How many digits a number below 10,000 has.
#[tactic(auto, using(crate::proofs::DecimalDigits::length_one, crate::proofs::DecimalDigits::length_two, crate::proofs::DecimalDigits::length_two_more))]
fn few_digits(n: u64) -> usize
    requires { n < 10000 }
    ensures { result ≡ length (decimal n) }
{
    match n {
        0..=9 => 1,
        10..=99 => 2,
        100..=999 => 3,
        _ => 4,
    }
}

// How many digits a decimal number has, counted four at a time.
#[tactic(auto, using(crate::proofs::DecimalDigits::length_four_more, crate::proofs::DecimalDigits::few_digits))]
pub fn digit_count(n: u64) -> usize
    ensures is { result ≡ length (decimal n) }
    ensures most { result ≤ 20 }
{
    let mut head = n;
    let mut count: usize = 0;
    while 9999 < head {
        head /= 10000;
        count += 4;
    }
    count + few_digits(head)
}

// How many decimal digits a byte has.
// Kept: no generic one with `digit_count`, since a byte's has no loop and promises at most 3.
#[tactic(auto, using(crate::proofs::DecimalDigits::byte_most))]
pub fn byte_digits(n: u8) -> usize
    ensures is { result ≡ length (decimal n) }
    ensures most { result ≤ 3 }
{
    few_digits(n as u64)
}
