// Exported to C and Rust: the queries of `c_queries`, under the same names and with the same clauses.
// include/bittmelon.h declares what is exported.
// Kept: functions that only pass on, as the C interface exports them from a crate of its own.
#![tactic(auto)]

ghost use Rattle.std.specs.Prelude.{◌≡◌, []};
ghost use Rattle.rules.specs.InPlace.{board_by, state_by};
ghost use Rattle.queries.specs.Queries.{phase_query, waits_query, reach_query, reach_scratch};
ghost use Rattle.queries.specs.Parts.{board_with, state_with};
ghost use Rattle.queries.specs.WholeBoard.{board_query, board_buffer};
ghost use Rattle.c_boards.specs.Parts.{terms_by, phases_by, moment_by};
ghost use Rattle.c_boards.specs.Answers.{c_answer_as_numbers};
ghost use Rattle.queries.specs.Contention.{shared_of};
ghost use Rattle.c_queries.specs.Shared.{c_conflict_as_numbers};

use c_boards::CAnswer;
use c_queries::CConflict;
use plans::{MAX_ENTRIES, MAX_PROCESSORS};

// Clause 7.1: the number of a processor's state. Refused with 11.
#[unsafe(no_mangle)]
pub extern "C" fn bittmelon_state_parts(
    processors: u8,
    entries: u8,
    phases: &[u32; 3],
    requested: &[u8; MAX_PROCESSORS],
    processor: u8,
) -> CAnswer
    ensures { c_answer_as_numbers result ≡ phase_query
        (board_with (terms_by processors entries 0) [])
        (state_with requested.now [] (phases_by phases.now)) processor }
{
    c_queries::bittmelon_state_parts(processors, entries, phases, requested, processor)
}

// Clause 7.2: the direct waits of a processor, as a mask. Refused with 11.
#[unsafe(no_mangle)]
pub extern "C" fn bittmelon_waits_parts(
    processors: u8,
    entries: u8,
    writes: u64,
    rows: &[u64; MAX_ENTRIES],
    phases: &[u32; 3],
    requested: &[u8; MAX_PROCESSORS],
    earlier: &[u32; MAX_PROCESSORS],
    processor: u8,
) -> CAnswer
    ensures { c_answer_as_numbers result ≡ waits_query
        (board_with (terms_by processors entries writes) rows.now)
        (state_with requested.now earlier.now (phases_by phases.now)) processor }
{
    c_queries::bittmelon_waits_parts(
        processors, entries, writes, rows, phases, requested, earlier, processor,
    )
}

// Clause 7.3: the reach of a processor, as a mask. The query leaves a word for each processor in the scratch, and bytes
// after the words stay. Refused with 11, then with 16; a refusal writes nothing.
#[unsafe(no_mangle)]
pub extern "C" fn bittmelon_reach_parts(
    processors: u8,
    entries: u8,
    writes: u64,
    rows: &[u64; MAX_ENTRIES],
    phases: &[u32; 3],
    requested: &[u8; MAX_PROCESSORS],
    earlier: &[u32; MAX_PROCESSORS],
    processor: u8,
    scratch: &mut [u8],
) -> CAnswer
    ensures mask { c_answer_as_numbers result ≡ reach_query
        (board_with (terms_by processors entries writes) rows.now)
        (state_with requested.now earlier.now (phases_by phases.now)) processor
        scratch.old }
    ensures stored { scratch.new ≡ reach_scratch
        (board_with (terms_by processors entries writes) rows.now)
        (state_with requested.now earlier.now (phases_by phases.now)) processor
        scratch.old }
{
    c_queries::bittmelon_reach_parts(
        processors, entries, writes, rows, phases, requested, earlier, processor, scratch,
    )
}

// Clause 7.7: fills the buffer with the list of the whole board and returns how many bytes it took; bytes after the
// list stay. A buffer that is too short is refused with 16, and then nothing is written.
#[unsafe(no_mangle)]
pub extern "C" fn bittmelon_list_parts(
    processors: u8,
    entries: u8,
    writes: u64,
    rows: &[u64; MAX_ENTRIES],
    last: u64,
    phases: &[u32; 3],
    requested: &[u8; MAX_PROCESSORS],
    since: &[u64; MAX_PROCESSORS],
    earlier: &[u32; MAX_PROCESSORS],
    buffer: &mut [u8],
) -> CAnswer
    ensures outcome { c_answer_as_numbers result ≡ board_query
        (board_by (terms_by processors entries writes) rows.now []) buffer.old }
    ensures bytes { buffer.new ≡ board_buffer
        (board_by (terms_by processors entries writes) rows.now [])
        (state_by (moment_by last phases.now)
        requested.now since.now earlier.now)
        buffer.old }
{
    c_queries::bittmelon_list_parts(
        processors, entries, writes, rows, last, phases, requested, since, earlier, buffer,
    )
}

// Clause 7.10: what two entries conflict over. Refused with 12.
#[unsafe(no_mangle)]
pub extern "C" fn bittmelon_shared_parts(
    processors: u8,
    entries: u8,
    writes: u64,
    names: &[u64; MAX_ENTRIES],
    widened: &[u64; MAX_ENTRIES],
    first: u8,
    second: u8,
) -> CConflict
    ensures { c_conflict_as_numbers result
        ≡ shared_of (terms_by processors entries writes) names.now widened.now first second }
{
    c_queries::bittmelon_shared_parts(processors, entries, writes, names, widened, first, second)
}
