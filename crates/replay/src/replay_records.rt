// One record of a log, replayed: its call is carried out and gets its line, or its refusal gets a line and ends the
// replay (specification, section 9). `run` replays the records of a block one by one.
ghost use Rattle.std.specs.Prelude.{◌≡◌, length};
ghost use Rattle.rules.specs.InPlace.{board_lent, state_lent, SameArrays};
ghost use Rattle.listings.specs.PlainLines.{line_buffer};
ghost use Rattle.replay.specs.Steps.{stands, replayed_lent};
ghost use Rattle.replay.specs.Records.{record_step};

use crate::carrying_out::{Replayed, carry_out};
use listings::{line_size, refusal_line};
use logs::read_record;
use rules::{LentArrays, LentBoard, Moment};

// One record: its call is carried out and gets its line, or its refusal is a line of its own and ends the replay. The
// table with the digits of every byte is lent.
pub fn replay_record(
    board: LentBoard<'_>,
    pairs: &[u16],
    moment: Moment,
    arrays: &mut LentArrays<'_>,
    bytes: &[u8],
    out: &mut [u8],
    at: usize,
) -> Replayed
    ensures same { SameArrays arrays.old arrays.new }
    ensures result { replayed_lent result arrays.new
        ≡ stands
        (record_step pairs.now (board_lent board.entry) (state_lent moment arrays.old) bytes.now)
        (length out.old) at }
    ensures written { out.new
        ≡ line_buffer
        (record_step pairs.now (board_lent board.entry) (state_lent moment arrays.old) bytes.now).line
        out.old at }
{
    match read_record(bytes) {
        Ok(call) => carry_out(board, pairs, moment, arrays, call, out, at),
        Err(refusal) => Replayed {
            moment,
            written: line_size(refusal_line(refusal, out, at)),
            ended: true,
        },
    }
}
