// The register block as a driver uses it: the driver lends the block to each read and write, and passes the arbiter's
// state by value (specification, section 10). `registers` defines the block. `register_listing` uses this crate, and
// `register_runs` proves what holds after every run.
#![tactic(auto)]

mod command_calls;
mod command_registers;
mod commands;
mod register_writes;

ghost use Rattle.std.specs.Prelude.{◌≡◌, OnErr};
ghost use Rattle.rules.specs.InPlace.{board_lent};
ghost use Rattle.encoding.specs.Buffers.{outcome_as_numbers};
ghost use Rattle.registers.specs.Registers.{register_read};
ghost use Rattle.register_block.specs.Commands.{register_write, written_as_numbers};

pub use commands::{Change, Written};
use refusals::Refusal;
pub use register_writes::write;
use registers::{Block, read};
use rules::{LentBoard, State};

// Reads an offset of the block. Refused with 18.
pub fn read_register(block: &Block, offset: u8) -> Result<u8, Refusal>
    ensures { outcome_as_numbers result ≡ register_read block.now offset }
{
    read(*block, offset)
}

// Writes a byte to an offset of the block, and returns the state after it. Refused with 18; then block and state stay as
// they were.
pub fn write_register(
    block: &mut Block,
    board: LentBoard<'_>,
    state: State,
    offset: u8,
    value: u8,
) -> Written
    ensures written { written_as_numbers result block.new
        ≡ register_write (board_lent board.entry) state block.old offset value }
    ensures kept { OnErr result.verdict ((block.new ≡ block.old) × (result.state ≡ state)) }
{
    match write(board, state, *block, offset, value) {
        Ok(change) => {
            *block = change.block;
            Written {
                verdict: Ok(()),
                state: change.state,
            }
        }
        Err(refusal) => Written {
            verdict: Err(refusal),
            state,
        },
    }
}
