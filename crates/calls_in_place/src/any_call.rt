// Any of the four calls, in place on the arrays of a state.
ghost use Rattle.std.specs.Prelude.{◌≡◌};
ghost use Rattle.rules.specs.Calls.{answered};
ghost use Rattle.rules.specs.InPlace.{board_lent, state_lent, answer_lent, SameArrays};

use crate::completing::complete_in_place;
use crate::handing_over::handover_in_place;
use crate::issuing::issue_in_place;
use crate::withdrawing::withdraw_in_place;
use rules::{Call, Changed, LentArrays, LentBoard, Moment};

// Answers any call on the three arrays of a state; the moment is the rest of the state. The result and the changed
// arrays are the answer that `arbiter::answer` gives.
pub fn answer_in_place(
    board: LentBoard<'_>,
    moment: Moment,
    arrays: &mut LentArrays<'_>,
    call: Call,
) -> Changed
    ensures same { SameArrays arrays.old arrays.new }
    ensures answer { answer_lent result arrays.new
        ≡ answered (board_lent board.entry) (state_lent moment arrays.old) call }
{
    match call {
        Call::Issue {
            processor,
            entry,
            tick,
        } => { issue_in_place(board, moment, arrays, processor, entry, tick) }
        Call::Complete { processor, tick } => {
            complete_in_place(
                board,
                moment,
                arrays.requested,
                arrays.since,
                arrays.earlier,
                processor,
                tick,
            )
        }
        Call::Withdraw { processor, tick } => {
            withdraw_in_place(
                board,
                moment,
                arrays.requested,
                arrays.since,
                arrays.earlier,
                processor,
                tick,
            )
        }
        Call::Handover {
            processor,
            entry,
            tick,
        } => { handover_in_place(board, moment, arrays, processor, entry, tick) }
    }
}
