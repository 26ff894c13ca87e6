// The register block without the arbiter: the layout of its 32 bytes, what a read returns, and what a write that is not
// a command stores. `register_block`, which adds the commands, and `register_listing` use it.
#![tactic(auto)]

mod register_reads;
mod register_stores;

ghost use Rattle.std.specs.Prelude.{◌≡◌, ◌^◌, ◌<◌};
ghost use Rattle.registers.specs.Registers.{tick_in, pending_in, enabled_in, line_of, with_line};

use encoding::read_number;
use masks::meet64;
pub use register_reads::{read, register_at};
pub use register_stores::store;

// How many bytes a block has.
pub const BLOCK: usize = 32;

// Any 32 bytes are a block. The byte at offset 0 comes first.
#[derive(Clone, Copy)]
pub struct Block {
    pub bytes: [u8; BLOCK],
}

// The register at an offset. Clause 10.2.
#[derive(Clone, Copy)]
pub enum Register {
    // 0: writing it carries out a command.
    Command,
    // 1, 2 and 4 to 8: the processor, the entry and the tick of the next command.
    Argument,
    // 3, 9 and 12 to 19: the last refusal, late, and the masks of the last accepted command.
    Answer,
    // 20 to 23: the processors that were granted.
    Pending,
    // 24 to 27: the processors for which the interrupt line is raised.
    Enabled,
    // 28: the interrupt line.
    Line,
    // Every other offset.
    Unlisted,
}

// The tick of the next command.
pub fn tick_in(bytes: [u8; BLOCK]) -> u64
    ensures { result ≡ tick_in bytes }
{
    read_number(&bytes[4..9])
}

// The processors that are pending.
pub fn pending_in(bytes: [u8; BLOCK]) -> u64
    ensures value { result ≡ pending_in bytes }
    ensures bound { result < 2 ^ 32 }
{
    read_number(&bytes[20..24])
}

// The processors for which the interrupt line is raised.
fn enabled_in(bytes: [u8; BLOCK]) -> u64
    ensures { result ≡ enabled_in bytes }
{
    read_number(&bytes[24..28])
}

// Clause 10.3: 1 if some bit is both pending and enabled, else 0.
#[tactic(auto, using(crate::proofs::Blocks::raised_meets))]
pub fn line_of(bytes: [u8; BLOCK]) -> u8
    ensures { result ≡ line_of bytes }
{
    u8::from(meet64(pending_in(bytes), enabled_in(bytes)))
}

// The block with these bytes and its interrupt line.
#[tactic(auto, unfolding(crate::specs::Registers::with_line))]
pub fn with_line(mut bytes: [u8; BLOCK]) -> Block
    ensures { result ≡ with_line bytes }
{
    bytes[28] = line_of(bytes);
    Block { bytes }
}
