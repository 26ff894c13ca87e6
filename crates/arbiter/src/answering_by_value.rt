// Any call with the state by value: the caller passes the state and gets it back with the answer. The board is lent or
// passed by value.
ghost use Rattle.std.specs.Prelude.{◌≡◌};
ghost use Rattle.rules.specs.Calls.{answered};
ghost use Rattle.rules.specs.InPlace.{board_lent};
ghost use Rattle.arbiter.specs.Answers.{answer_of};

use calls_in_place::answer_in_place;
use rules::{Board, Call, Changed, LentArrays, LentBoard, Reply, State};

// After a refusal, `state` is the state that was given.
#[derive(Clone, Copy)]
pub struct Answered {
    pub reply: Reply,
    pub state: State,
}

// The answer to any call, with the board's rows and lengths lent: a caller that makes many calls does not copy the
// board.
pub fn answer_on(board: LentBoard<'_>, state: State, call: Call) -> Answered
    ensures { answer_of result ≡ answered (board_lent board.entry) state call }
{
    let given = state.moment();
    let mut requested = state.requested;
    let mut since = state.since;
    let mut earlier = state.earlier;
    let mut arrays = LentArrays {
        requested: &mut requested,
        since: &mut since,
        earlier: &mut earlier,
    };
    let Changed { reply, moment } = answer_in_place(board, given, &mut arrays, call);
    Answered {
        reply,
        state: State {
            last: moment.last,
            phases: moment.phases,
            since,
            earlier,
            requested,
        },
    }
}

// The answer to any call.
pub fn answer(board: Board, state: State, call: Call) -> Answered
    ensures { answer_of result ≡ answered board state call }
{
    let lent = board.lend();
    answer_on(lent, state, call)
}
