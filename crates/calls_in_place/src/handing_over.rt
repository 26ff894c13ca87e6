// A handover, carried out in place on the arrays of a state: a completion and an issue in one call. Specification,
// clauses 4.4 to 4.8.
ghost use Rattle.std.specs.Prelude.{◌≡◌};
ghost use Rattle.rules.specs.Calls.{handed_over};
ghost use Rattle.rules.specs.InPlace.{board_lent, state_lent, answer_lent, SameArrays};

use crate::answers::{accepted, refused};
use call_checks::check_handover;
use requests::{enter, late_mark, leave, length_at, merge, put_last};
use rules::{Changed, LentArrays, LentBoard, LentFacts, Moment};
use settling::clean;

// The processor completes its request and issues one for an entry, at one tick. Refused with 10, 11, 12, 14 or 15,
// checked in this order. The halves need no checks of their own: an issue right after its processor's completion is
// never refused.
pub fn handover_in_place(
    board: LentBoard<'_>,
    moment: Moment,
    arrays: &mut LentArrays<'_>,
    processor: u8,
    entry: u8,
    tick: u64,
) -> Changed
    ensures same { SameArrays arrays.old arrays.new }
    ensures answer { answer_lent result arrays.new
        ≡ handed_over (board_lent board.entry) (state_lent moment arrays.old) processor entry tick }
{
    let terms = board.terms;
    let before = clean(terms, *arrays.requested, moment.phases);
    if let Err(refusal) = check_handover(terms, moment.last, before, processor, entry, tick) {
        return refused(refusal, moment);
    }
    let lengths = board.lengths;
    let length = length_at(lengths, arrays.requested[processor as usize]);
    let late = late_mark(length, arrays.since[processor as usize], tick);
    let facts = LentFacts {
        terms,
        rows: board.rows,
        requested: arrays.requested,
        earlier: arrays.earlier,
    };
    let first = leave(facts, arrays.since, before, processor, tick, late);
    let left = first.phases;
    let ready = clean(terms, *arrays.requested, left);
    put_last(arrays.earlier, ready, processor);
    let second = enter(
        board,
        arrays.requested,
        arrays.since,
        arrays.earlier,
        ready,
        processor,
        entry,
        tick,
    );
    accepted(merge(first, second), tick)
}
