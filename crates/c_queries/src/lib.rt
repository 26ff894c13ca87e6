// For C and Rust: the queries on memory that the caller owns. Its parts are lent as pointers, and only a lent scratch
// or buffer is changed. `c_queries_c` exports these functions, and include/bittmelon.h declares them. Specification,
// sections 7 and 11.
// Kept: the parts one by one, as each function is an exported name with the parameters of the C interface.
#![tactic(auto)]

mod c_contention;

ghost use Rattle.std.specs.Prelude.{◌≡◌, []};
ghost use Rattle.rules.specs.InPlace.{board_by, state_by};
ghost use Rattle.queries.specs.Queries.{phase_query, waits_query, reach_query, reach_scratch};
ghost use Rattle.queries.specs.Parts.{board_with, state_with};
ghost use Rattle.queries.specs.WholeBoard.{board_query, board_buffer};
ghost use Rattle.c_boards.specs.Parts.{terms_by, phases_by, moment_by};
ghost use Rattle.c_boards.specs.Answers.{c_answer_as_numbers};

use c_boards::{CAnswer, moment_of, phases_of, terms_of};
pub use c_contention::{CConflict, bittmelon_shared_parts};
use plans::{MAX_ENTRIES, MAX_PROCESSORS};
use queries::{direct_waits_in_place, list_board_in_place, phase_in_place};
use reach::reach_in_place;
use rules::LentFacts;

// Clause 7.1: the number of a processor's state. Refused with 11.
pub fn bittmelon_state_parts(
    processors: u8,
    entries: u8,
    phases: &[u32; 3],
    requested: &[u8; MAX_PROCESSORS],
    processor: u8,
) -> CAnswer
    ensures { c_answer_as_numbers result ≡ phase_query
        (board_with (terms_by processors entries 0) [])
        (state_with requested.now [] (phases_by phases.now)) processor }
{
    let terms = terms_of(processors, entries, 0);
    let answer = phase_in_place(terms, requested, phases_of(*phases), processor);
    CAnswer::from(answer.map(|phase| u64::from(u8::from(phase))))
}

// Clause 7.2: the direct waits of a processor, as a mask. Refused with 11.
pub fn bittmelon_waits_parts(
    processors: u8,
    entries: u8,
    writes: u64,
    rows: &[u64; MAX_ENTRIES],
    phases: &[u32; 3],
    requested: &[u8; MAX_PROCESSORS],
    earlier: &[u32; MAX_PROCESSORS],
    processor: u8,
) -> CAnswer
    ensures { c_answer_as_numbers result ≡ waits_query
        (board_with (terms_by processors entries writes) rows.now)
        (state_with requested.now earlier.now (phases_by phases.now)) processor }
{
    let facts = LentFacts {
        terms: terms_of(processors, entries, writes),
        rows,
        requested,
        earlier,
    };
    let answer = direct_waits_in_place(facts, phases_of(*phases), processor);
    CAnswer::from(answer.map(u64::from))
}

// Clause 7.3: the reach of a processor, as a mask. The query leaves a word for each processor in the scratch, and bytes
// after the words stay. Refused with 11, then with 16; a refusal writes nothing.
pub fn bittmelon_reach_parts(
    processors: u8,
    entries: u8,
    writes: u64,
    rows: &[u64; MAX_ENTRIES],
    phases: &[u32; 3],
    requested: &[u8; MAX_PROCESSORS],
    earlier: &[u32; MAX_PROCESSORS],
    processor: u8,
    scratch: &mut [u8],
) -> CAnswer
    ensures mask { c_answer_as_numbers result ≡ reach_query
        (board_with (terms_by processors entries writes) rows.now)
        (state_with requested.now earlier.now (phases_by phases.now)) processor
        scratch.old }
    ensures stored { scratch.new ≡ reach_scratch
        (board_with (terms_by processors entries writes) rows.now)
        (state_with requested.now earlier.now (phases_by phases.now)) processor
        scratch.old }
{
    let facts = LentFacts {
        terms: terms_of(processors, entries, writes),
        rows,
        requested,
        earlier,
    };
    let answer = reach_in_place(facts, phases_of(*phases), processor, scratch);
    CAnswer::from(answer.map(u64::from))
}

// Clause 7.7: fills the buffer with the list of the whole board and returns how many bytes it took; bytes after the
// list stay. A buffer that is too short is refused with 16, and then nothing is written.
pub fn bittmelon_list_parts(
    processors: u8,
    entries: u8,
    writes: u64,
    rows: &[u64; MAX_ENTRIES],
    last: u64,
    phases: &[u32; 3],
    requested: &[u8; MAX_PROCESSORS],
    since: &[u64; MAX_PROCESSORS],
    earlier: &[u32; MAX_PROCESSORS],
    buffer: &mut [u8],
) -> CAnswer
    ensures outcome { c_answer_as_numbers result ≡ board_query
        (board_by (terms_by processors entries writes) rows.now []) buffer.old }
    ensures bytes { buffer.new ≡ board_buffer
        (board_by (terms_by processors entries writes) rows.now [])
        (state_by (moment_by last phases.now)
        requested.now since.now earlier.now)
        buffer.old }
{
    let facts = LentFacts {
        terms: terms_of(processors, entries, writes),
        rows,
        requested,
        earlier,
    };
    let outcome = list_board_in_place(facts, since, moment_of(last, *phases), buffer);
    CAnswer::from(outcome.map(|count| count as u64))
}
