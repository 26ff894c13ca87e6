// An issue, carried out in place on the arrays of a state that the caller lends: nothing is copied. The call is
// checked, then the request is added, and the answer says who began to hold and who became entitled. Specification,
// clauses 4.4 to 4.10.
ghost use Rattle.std.specs.Prelude.{◌≡◌};
ghost use Rattle.rules.specs.Calls.{issued};
ghost use Rattle.rules.specs.InPlace.{board_lent, state_lent, answer_lent, SameArrays};

use crate::answers::{accepted, refused};
use call_checks::check_issue;
use requests::{enter, put_last};
use rules::{Changed, LentArrays, LentBoard, Moment};
use settling::clean;

// The processor issues a request for an entry at a tick. Refused with 10, 11, 12 or 13, checked in this order.
pub fn issue_in_place(
    board: LentBoard<'_>,
    moment: Moment,
    arrays: &mut LentArrays<'_>,
    processor: u8,
    entry: u8,
    tick: u64,
) -> Changed
    ensures same { SameArrays arrays.old arrays.new }
    ensures answer { answer_lent result arrays.new
        ≡ issued (board_lent board.entry) (state_lent moment arrays.old) processor entry tick }
{
    let terms = board.terms;
    let before = clean(terms, *arrays.requested, moment.phases);
    if let Err(refusal) = check_issue(terms, moment.last, before, processor, entry, tick) {
        return refused(refusal, moment);
    }
    put_last(arrays.earlier, before, processor);
    let carried = enter(
        board,
        arrays.requested,
        arrays.since,
        arrays.earlier,
        before,
        processor,
        entry,
        tick,
    );
    accepted(carried, tick)
}
