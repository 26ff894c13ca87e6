// A write to any offset of a register block, on a lent board and a state by value. Specification, section 10.
ghost use Rattle.std.specs.Prelude.{◌≡◌};
ghost use Rattle.rules.specs.InPlace.{board_lent};
ghost use Rattle.register_block.specs.Commands.{register_write, change_as_numbers};

use crate::commands::{Change, command};
use refusals::Refusal;
use registers::{Block, Register, register_at, store};
use rules::{LentBoard, State};

// Writes a byte to an offset of a block. Refused with 18.
#[tactic(auto, unfolding(crate::specs::Commands::register_write))]
pub fn write(
    board: LentBoard<'_>,
    state: State,
    block: Block,
    offset: u8,
    value: u8,
) -> Result<Change, Refusal>
    ensures { change_as_numbers result block state
        ≡ register_write (board_lent board.entry) state block offset value }
{
    match register_at(offset) {
        Register::Command => command(board, state, block, value),
        Register::Argument | Register::Pending | Register::Enabled => {
            Ok(Change {
                block: store(block, offset, value),
                state,
            })
        }
        Register::Answer | Register::Line | Register::Unlisted => Err(Refusal::Register),
    }
}
