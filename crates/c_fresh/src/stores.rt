// Stores a board and a state in the caller's memory.
ghost use Rattle.std.specs.Prelude.{◌≡◌};
ghost use Rattle.rules.specs.InPlace.{state_by};
ghost use Rattle.c_boards.specs.Parts.{terms_by, moment_by, board_in};

use c_boards::store_moment;
use plans::{MAX_ENTRIES, MAX_PROCESSORS};
use rules::{Board, State};

pub fn store_board(
    board: &Board,
    processors: &mut u8,
    entries: &mut u8,
    writes: &mut u64,
    lengths: &mut [u16; MAX_ENTRIES],
    names: &mut [u64; MAX_ENTRIES],
    widened: &mut [u64; MAX_ENTRIES],
    rows: &mut [u64; MAX_ENTRIES],
)
    ensures { board_in (terms_by processors.new entries.new writes.new) lengths.new names.new widened.new rows.new
        ≡ board.now }
{
    *processors = board.terms.processors;
    *entries = board.terms.count;
    *writes = board.terms.writes;
    lengths.copy_from_slice(&board.lengths);
    names.copy_from_slice(&board.names);
    widened.copy_from_slice(&board.widened);
    rows.copy_from_slice(&board.rows);
}

pub fn store_state(
    state: &State,
    last: &mut u64,
    phases: &mut [u32; 3],
    requested: &mut [u8; MAX_PROCESSORS],
    since: &mut [u64; MAX_PROCESSORS],
    earlier: &mut [u32; MAX_PROCESSORS],
)
    ensures { state_by (moment_by last.new phases.new) requested.new since.new earlier.new ≡ state.now }
{
    store_moment(state.moment(), last, phases);
    requested.copy_from_slice(&state.requested);
    since.copy_from_slice(&state.since);
    earlier.copy_from_slice(&state.earlier);
}
