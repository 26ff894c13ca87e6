// The whole board in one buffer, in one pass: which requests write and which count is computed only once.
// Specification, clauses 7.7 to 7.9.
ghost use Rattle.std.specs.Prelude.{◌≡◌, []};
ghost use Rattle.encoding.specs.Buffers.{outcome_as_numbers};
ghost use Rattle.rules.specs.InPlace.{board_by, state_by};
ghost use Rattle.queries.specs.WholeBoard.{board_query, board_buffer};

use crate::lending::lent;
use board_list::Columns;
use plans::MAX_PROCESSORS;
use refusals::Refusal;
use rules::{Board, LentFacts, Moment, State};
use settling::clean;
use waits::waits_of_all;

// Fills the buffer with the list and returns how many bytes it took; bytes after it stay. The parts of a board and a
// state are lent, as in a call in place. A buffer that is too short is refused with 16, and then nothing is written.
pub fn list_board_in_place(
    facts: LentFacts<'_>,
    since: &[u64; MAX_PROCESSORS],
    moment: Moment,
    buffer: &mut [u8],
) -> Result<usize, Refusal>
    ensures outcome { outcome_as_numbers result
        ≡ board_query (board_by facts.entry.terms facts.entry.rows.now []) buffer.old }
    ensures bytes { buffer.new ≡ board_buffer
        (board_by facts.entry.terms facts.entry.rows.now [])
        (state_by moment facts.entry.requested.now since.now facts.entry.earlier.now)
        buffer.old }
{
    let phases = clean(facts.terms, *facts.requested, moment.phases);
    let columns = Columns {
        moment: Moment {
            last: moment.last,
            phases,
        },
        requested: facts.requested,
        since,
        waits: &waits_of_all(facts, phases),
    };
    board_list::write(facts.terms.processors, columns, buffer)
}

// The same by value.
#[tactic(auto, unfolding(crate::specs::Queries::state_number, crate::specs::Queries::waits_for, crate::specs::WholeBoard::board_part))]
pub fn list_board(board: Board, state: State, buffer: &mut [u8]) -> Result<usize, Refusal>
    ensures outcome { outcome_as_numbers result ≡ board_query board buffer.old }
    ensures bytes { buffer.new ≡ board_buffer board state buffer.old }
{
    list_board_in_place(lent(&board, &state), &state.since, state.moment(), buffer)
}
