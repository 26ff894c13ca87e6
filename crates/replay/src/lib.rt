// Replays a log: its bytes come in blocks of any size, each call is carried out, and the lines of a block are written
// into a lent buffer (specification, section 9). `lockreplay` and `query_listing` call it between reading and writing.
// `whole_listing` proves that all blocks together give the listing of the log.
#![tactic(auto)]

mod budgets;
mod carrying_out;
mod log_ends;
mod log_openings;
mod replay_records;

ghost use Rattle.std.specs.Prelude.{◌≡◌, ◌*◌, ◌≤◌, length};
ghost use Rattle.encoding.specs.Buffers.{overwritten};
ghost use Rattle.rules.specs.InPlace.{board_lent, state_lent, SameArrays};
ghost use Rattle.logs.specs.Records.{record_size};
ghost use Rattle.digits.specs.Digits.{hex_pairs};
ghost use Rattle.replay.specs.Budgets.{line_room};
ghost use Rattle.replay.specs.Blocks.{ran, budget, ran_block};
ghost use Rattle.replay.specs.inner.Parts.{ran_lent};

use budgets::budget_of;
use digits::hex_pairs;
pub use log_ends::{CallCount, count, finish};
pub use log_openings::{Begun, Opened, begin};
use logs::RECORD_BYTES;
use replay_records::replay_record;
use rules::{Board, LentArrays, LentBoard, Moment, State};

// What some records did, apart from the arrays of the state: the moment after them, how many calls were carried out,
// how many bytes their lines took, and whether a refusal ended the replay.
// Kept: `ended` is no `Result`, here and in a block, since the calls before a refusal stay carried out and are counted.
// Kept: no `RanBlock`, since the arrays of the state are lent while its records are carried out.
#[derive(Clone, Copy)]
struct Progress {
    moment: Moment,
    calls: u16,
    written: usize,
    ended: bool,
}

// What a block of bytes did: the state after it, how many calls were carried out, how many bytes their lines took, and
// whether a refusal ended the replay.
#[derive(Clone, Copy)]
pub struct RanBlock {
    pub state: State,
    pub calls: u16,
    pub written: usize,
    pub ended: bool,
}

// Carries out so many records one by one, up to the first that is refused. Their lines are written at the start of
// `out`. The table with the digits of every byte is lent.
fn run_records(
    board: LentBoard<'_>,
    pairs: &[u16],
    first: Moment,
    arrays: &mut LentArrays<'_>,
    due: u16,
    bytes: &[u8],
    out: &mut [u8],
) -> Progress
    requires { (pairs.now ≡ hex_pairs) × ((record_size * due ≤ length bytes.now) × (line_room * due ≤ length out.old)) }
    ensures same { SameArrays arrays.old arrays.new }
    ensures result { ran_lent result arrays.new
        ≡ ran_block (ran (board_lent board.entry) (state_lent first arrays.old) due bytes.now) }
    ensures written { out.new
        ≡ overwritten out.old 0 (ran (board_lent board.entry) (state_lent first arrays.old) due bytes.now).lines }
{
    let mut moment = first;
    let mut written: usize = 0;
    for calls in 0..due {
        let record = &bytes[RECORD_BYTES * calls as usize..];
        let carried = replay_record(board, pairs, moment, arrays, record, out, written);
        moment = carried.moment;
        written += carried.written;
        if carried.ended {
            return Progress {
                moment,
                calls,
                written,
                ended: true,
            };
        }
    }
    Progress {
        moment,
        calls: due,
        written,
        ended: false,
    }
}

// Carries out the records of a block one by one, up to the first that is refused. Their lines are written at the start
// of `out`.
#[tactic(auto, using(crate::proofs::Turns::ran_reads))]
pub fn run(board: Board, state: State, left: u16, bytes: &[u8], out: &mut [u8]) -> RanBlock
    ensures result { result
        ≡ ran_block
        (ran board state (budget left bytes.now (length out.old)) bytes.now) }
    ensures written { out.new
        ≡ overwritten out.old 0
        (ran board state (budget left bytes.now (length out.old)) bytes.now).lines }
{
    let lent = board.lend();
    let first = state.moment();
    let mut requested = state.requested;
    let mut since = state.since;
    let mut earlier = state.earlier;
    let mut arrays = LentArrays {
        requested: &mut requested,
        since: &mut since,
        earlier: &mut earlier,
    };
    let pairs = hex_pairs();
    let due = budget_of(left, bytes.len(), out.len());
    let done = run_records(lent, &pairs, first, &mut arrays, due, bytes, out);
    RanBlock {
        state: State {
            last: done.moment.last,
            phases: done.moment.phases,
            since,
            earlier,
            requested,
        },
        calls: done.calls,
        written: done.written,
        ended: done.ended,
    }
}
