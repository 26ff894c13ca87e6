// The arbiter by value: a call takes a state and returns it with the reply, which says who began to hold; `boards`
// makes the board and the first state. `answer` takes any call, and `issue`, `complete`, `withdraw` and `handover` take
// one kind each. `register_block` and `bench_library` use it; the same calls on lent arrays, without copies, are in
// `calls_in_place`.
#![tactic(auto)]

mod answering_by_value;

ghost use Rattle.std.specs.Prelude.{◌≡◌};
ghost use Rattle.rules.specs.Calls.{phases_of, issued, completed, withdrawn, handed_over};
ghost use Rattle.arbiter.specs.Answers.{answer_of};

pub use answering_by_value::{Answered, answer, answer_on};
use rules::{Board, Call, Phases, State};
use settling::clean;

// The phases of the requests that count: who waits, who is entitled and who holds.
pub fn phases_of(board: Board, state: State) -> Phases
    ensures { result ≡ phases_of board state }
{
    clean(board.terms, state.requested, state.phases)
}

// The processor issues a request for an entry at a tick. Refused with 10, 11, 12 or 13, checked in this order.
pub fn issue(board: Board, state: State, processor: u8, entry: u8, tick: u64) -> Answered
    ensures { answer_of result ≡ issued board state processor entry tick }
{
    answer(
        board,
        state,
        Call::Issue {
            processor,
            entry,
            tick,
        },
    )
}

// The processor completes its request at a tick. Refused with 10, 11, 14 or 15, checked in this order.
pub fn complete(board: Board, state: State, processor: u8, tick: u64) -> Answered
    ensures { answer_of result ≡ completed board state processor tick }
{
    answer(board, state, Call::Complete { processor, tick })
}

// The processor leaves the queue at a tick; its request must not hold. Refused with 10, 11, 14 or 17, checked in this
// order.
pub fn withdraw(board: Board, state: State, processor: u8, tick: u64) -> Answered
    ensures { answer_of result ≡ withdrawn board state processor tick }
{
    answer(board, state, Call::Withdraw { processor, tick })
}

// The processor completes its request and issues one for an entry, at one tick. Refused with 10, 11, 12, 14 or 15,
// checked in this order.
pub fn handover(board: Board, state: State, processor: u8, entry: u8, tick: u64) -> Answered
    ensures { answer_of result ≡ handed_over board state processor entry tick }
{
    answer(
        board,
        state,
        Call::Handover {
            processor,
            entry,
            tick,
        },
    )
}
