// One call of a log: it is carried out in place on the arrays of a state, and its line is written into a lent buffer
// (specification, sections 4 and 9). `replay_records` reads the record that contains the call.
ghost use Rattle.std.specs.Prelude.{◌≡◌, length};
ghost use Rattle.rules.specs.InPlace.{board_lent, state_lent, SameArrays};
ghost use Rattle.listings.specs.PlainLines.{line_buffer};
ghost use Rattle.replay.specs.Steps.{call_step, stands, replayed_lent};

use calls_in_place::answer_in_place;
use listings::{MaskFormat, call_line_by, line_size};
use rules::{Call, LentArrays, LentBoard, Moment};

// What one record did, apart from the arrays of the state: the moment after it, how many bytes its line took, and
// whether it ended the replay.
// Kept: `ended` is no `Result`, since the moment and the bytes of the line mean the same after a refusal.
#[derive(Clone, Copy)]
pub struct Replayed {
    pub moment: Moment,
    pub written: usize,
    pub ended: bool,
}

// Kept: board, digits, moment, arrays and lines are five parameters, since each of them changes at its own pace.
// Carries out a call and writes its line; the replay goes on. The table with the digits of every byte is lent.
#[tactic(auto, unfolding(crate::specs::Steps::call_step, crate::specs::Steps::stands))]
pub fn carry_out(
    board: LentBoard<'_>,
    pairs: &[u16],
    moment: Moment,
    arrays: &mut LentArrays<'_>,
    call: Call,
    out: &mut [u8],
    at: usize,
) -> Replayed
    ensures same { SameArrays arrays.old arrays.new }
    ensures result { replayed_lent result arrays.new
        ≡ stands (call_step pairs.now (board_lent board.entry) (state_lent moment arrays.old) call) (length out.old) at }
    ensures written { out.new
        ≡ line_buffer (call_step pairs.now (board_lent board.entry) (state_lent moment arrays.old) call).line out.old at }
{
    let changed = answer_in_place(board, moment, arrays, call);
    let format = MaskFormat {
        pairs,
        processors: board.terms.processors,
    };
    let written = line_size(call_line_by(format, call, changed.reply, out, at));
    Replayed {
        moment: changed.moment,
        written,
        ended: false,
    }
}
