// A board and a state by value, lent to a query.
ghost use Rattle.std.specs.Prelude.{◌≡◌};

use rules::{Board, LentFacts, State};

// What the queries read of a board and of a state's arrays.
pub fn lent<'a>(board: &'a Board, state: &'a State) -> LentFacts<'a>
    ensures terms { result.terms ≡ board.now.terms }
    ensures rows { result.rows.now ≡ board.now.rows }
    ensures requested { result.requested.now ≡ state.now.requested }
    ensures earlier { result.earlier.now ≡ state.now.earlier }
{
    LentFacts {
        terms: board.terms,
        rows: &board.rows,
        requested: &state.requested,
        earlier: &state.earlier,
    }
}
