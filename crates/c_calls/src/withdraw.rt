// A withdrawal on memory that the caller owns. Specification, section 4.
ghost use Rattle.std.specs.Prelude.{◌≡◌};
ghost use Rattle.rules.specs.Calls.{withdrawn};
ghost use Rattle.rules.specs.InPlace.{board_by, state_by};
ghost use Rattle.c_boards.specs.Parts.{terms_by, moment_by};
ghost use Rattle.c_calls.specs.Replies.{answer_in};

use crate::c_replies::{CReply, store_and_reply};
use c_boards::{moment_of, terms_of};
use calls_in_place::withdraw_in_place;
use plans::{MAX_ENTRIES, MAX_PROCESSORS};
use rules::LentBoard;

// The processor leaves the queue at a tick; its request must not hold. Refused with 10, 11, 14 or 17, checked in this
// order.
pub fn bittmelon_withdraw_parts(
    processors: u8,
    entries: u8,
    writes: u64,
    rows: &[u64; MAX_ENTRIES],
    lengths: &[u16; MAX_ENTRIES],
    last: &mut u64,
    phases: &mut [u32; 3],
    requested: &[u8; MAX_PROCESSORS],
    since: &mut [u64; MAX_PROCESSORS],
    earlier: &[u32; MAX_PROCESSORS],
    processor: u8,
    tick: u64,
) -> CReply
    ensures { answer_in result
        last.new phases.new requested.now since.new earlier.now
        ≡ withdrawn (board_by (terms_by processors entries writes) rows.now lengths.now)
        (state_by (moment_by last.old phases.old)
        requested.now since.old earlier.now) processor tick }
{
    // Kept: the arrays one by one, since C lends only `since` for writing.
    let board = LentBoard {
        terms: terms_of(processors, entries, writes),
        rows,
        lengths,
    };
    let moment = moment_of(*last, *phases);
    let changed = withdraw_in_place(board, moment, requested, since, earlier, processor, tick);
    store_and_reply(changed, last, phases)
}
