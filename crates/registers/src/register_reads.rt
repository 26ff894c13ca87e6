// Which register is at an offset of a block, and what a read of it returns. Specification, clauses 10.2 and 10.4.
ghost use Rattle.std.specs.Prelude.{◌≡◌};
ghost use Rattle.encoding.specs.Buffers.{outcome_as_numbers};
ghost use Rattle.registers.specs.Registers.{register_at, register_read};

use crate::{Block, Register, line_of};
use encoding::byte_at;
use refusals::Refusal;

// The register at an offset.
#[tactic(auto, using(std::proofs::lemmas::Bool::Decides::nat_tests), unfolding(crate::specs::Registers::register_at))]
pub fn register_at(offset: u8) -> Register
    ensures { result ≡ register_at offset }
{
    match offset {
        0 => Register::Command,
        1..=2 | 4..=8 => Register::Argument,
        3 | 9 | 12..=19 => Register::Answer,
        20..=23 => Register::Pending,
        24..=27 => Register::Enabled,
        28 => Register::Line,
        _ => Register::Unlisted,
    }
}

// Reads an offset of a block. Refuses with 18 if the offset is not listed.
#[tactic(auto, unfolding(crate::specs::Registers::register_read))]
pub fn read(block: Block, offset: u8) -> Result<u8, Refusal>
    ensures { outcome_as_numbers result ≡ register_read block offset }
{
    let byte = byte_at(&block.bytes, offset as usize);
    match register_at(offset) {
        Register::Command => Ok(0),
        Register::Argument | Register::Answer | Register::Pending | Register::Enabled => Ok(byte),
        Register::Line => Ok(line_of(block.bytes)),
        Register::Unlisted => Err(Refusal::Register),
    }
}
