// Commands of the register block, on a lent board and a state by value. Specification, section 10.
ghost use Rattle.std.specs.Prelude.{◌≡◌};
ghost use Rattle.rules.specs.InPlace.{board_lent};
ghost use Rattle.register_block.specs.Commands.{commanded, change_as_numbers};

use crate::command_calls::call_of;
use crate::command_registers::show;
use arbiter::{Answered, answer_on};
use refusals::Refusal;
use registers::Block;
use rules::{LentBoard, State};

// The block and the state after a write that is accepted.
#[derive(Clone, Copy)]
pub struct Change {
    pub block: Block,
    pub state: State,
}

// Clause 10.10: what a write to a lent block returns: the answer, which is 0 or 18, and the state after it.
#[derive(Clone, Copy)]
pub struct Written {
    pub verdict: Result<(), Refusal>,
    pub state: State,
}

// Clause 10.7: carries out a command. Refused with 18.
#[tactic(auto, using(std::proofs::lemmas::Bool::Decides::nat_tests), unfolding(crate::specs::Commands::commanded))]
pub fn command(
    board: LentBoard<'_>,
    state: State,
    block: Block,
    command: u8,
) -> Result<Change, Refusal>
    ensures { change_as_numbers result block state ≡ commanded (board_lent board.entry) state block command }
{
    match command {
        0 => Ok(Change { block, state }),
        1..=4 => {
            let call = call_of(block.bytes, command);
            let Answered { reply, state } = answer_on(board, state, call);
            Ok(Change {
                block: show(block.bytes, reply),
                state,
            })
        }
        _ => Err(Refusal::Register),
    }
}
