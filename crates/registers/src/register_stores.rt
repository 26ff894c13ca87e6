// What a write that is not a command leaves in a register block. Specification, clause 10.6.
ghost use Rattle.std.specs.Prelude.{◌≡◌, set};
ghost use Rattle.registers.specs.Stores.{cleared, new_byte, stored};

use crate::register_reads::register_at;
use crate::{BLOCK, Block, Register, with_line};

// Clause 10.6: the bits of a byte without those that are set in the value.
#[tactic(auto, using(crate::proofs::register_stores::Cleared::without_cleared))]
fn cleared_by(old: u8, value: u8) -> u8
    ensures { result ≡ cleared 8 old value }
{
    old & !value
}

// Clause 10.6: the byte that a write leaves at a register.
fn new_byte(register: Register, old: u8, value: u8) -> u8
    ensures { result ≡ new_byte register old value }
{
    match register {
        Register::Pending => cleared_by(old, value),
        _ => value,
    }
}

// Clause 10.6: a write that is neither a command nor refused. An offset past the end stores nothing.
#[tactic(auto, using(std::proofs::lemmas::List::set_past), unfolding(crate::specs::Stores::stored))]
pub fn store(block: Block, offset: u8, value: u8) -> Block
    ensures { result ≡ stored block offset value }
{
    let mut bytes = block.bytes;
    let place = offset as usize;
    // Kept: a test and an index, since the contract of `get_mut` says nothing of what the slice ends as.
    if place < BLOCK {
        bytes[place] = new_byte(register_at(offset), bytes[place], value);
    }
    with_line(bytes)
}
