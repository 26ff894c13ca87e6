// A withdrawal, carried out in place on the arrays of a state that the caller lends: nothing is copied. The call is
// checked, then the request is removed, and the answer says who began to hold and who became entitled. Specification,
// clauses 4.4 to 4.10.
ghost use Rattle.std.specs.Prelude.{◌≡◌};
ghost use Rattle.rules.specs.Calls.{withdrawn};
ghost use Rattle.rules.specs.InPlace.{board_lent, state_by, answer_by};

use crate::answers::{accepted, refused};
use call_checks::check_withdraw;
use plans::MAX_PROCESSORS;
use requests::leave;
use rules::{Changed, LentBoard, LentFacts, Moment};
use settling::clean;

// The processor leaves the queue at a tick; its request must not hold. Refused with 10, 11, 14 or 17, checked in this
// order.
// Kept: the two arrays that it only reads are lent for reading alone, as the C interface lends them.
pub fn withdraw_in_place(
    board: LentBoard<'_>,
    moment: Moment,
    requested: &[u8; MAX_PROCESSORS],
    since: &mut [u64; MAX_PROCESSORS],
    earlier: &[u32; MAX_PROCESSORS],
    processor: u8,
    tick: u64,
) -> Changed
    ensures { answer_by result requested.now since.new earlier.now
        ≡ withdrawn (board_lent board.entry)
        (state_by moment requested.now since.old earlier.now) processor tick }
{
    let terms = board.terms;
    let before = clean(terms, *requested, moment.phases);
    if let Err(refusal) = check_withdraw(terms, moment.last, before, processor, tick) {
        return refused(refusal, moment);
    }
    let facts = LentFacts {
        terms,
        rows: board.rows,
        requested,
        earlier,
    };
    accepted(leave(facts, since, before, processor, tick, 0), tick)
}
