// A request enters or leaves on the arrays of a state. All requests are settled, and the effect contains who began to
// hold and who became entitled. Specification, clauses 4.4 to 4.8.
ghost use Rattle.std.specs.Prelude.{◌≡◌, set};
ghost use Rattle.rules.specs.Requests.{facts_by};
ghost use Rattle.rules.specs.Settling.{settled};
ghost use Rattle.rules.specs.Acts.{put_in, taken_out};
ghost use Rattle.rules.specs.Calls.{done};
ghost use Rattle.rules.specs.InPlace.{state_by, facts_lent};
ghost use Rattle.requests.specs.Effect.{effect_as_numbers};

use crate::effects::Effect;
use crate::grants::accept;
use crate::placing::{settle_left, settle_new, take_out};
use crate::stores::store;
use plans::MAX_PROCESSORS;
use rules::{LentBoard, LentFacts, Phases};

// The processor's request for the entry enters, in addition to the requests of these phases. The caller gives who is
// earlier. The effect is never late.
#[inline]
pub fn enter(
    board: LentBoard<'_>,
    requested: &mut [u8; MAX_PROCESSORS],
    since: &mut [u64; MAX_PROCESSORS],
    earlier: &[u32; MAX_PROCESSORS],
    phases: Phases,
    processor: u8,
    entry: u8,
    tick: u64,
) -> Effect
    ensures { effect_as_numbers result tick requested.new since.new earlier.now
        ≡ done (state_by (record { last = tick; phases = put_in phases processor })
        (set requested.old processor entry) (set since.old processor tick) earlier.now)
        (settled
        (facts_by board.entry.rows.now board.entry.terms.writes (set requested.old processor entry) earlier.now)
        (put_in phases processor)) 0 }
{
    store(requested, processor, entry);
    store(since, processor, tick);
    let facts = LentFacts {
        terms: board.terms,
        rows: board.rows,
        requested,
        earlier,
    };
    let after = settle_new(facts, phases, processor);
    accept(tick, phases, after, since, 0)
}

// The processor's request leaves the requests of these phases, and the others are settled. Of the arrays it changes
// only the ticks, so the other two are lent with the facts.
#[inline]
pub fn leave(
    facts: LentFacts<'_>,
    since: &mut [u64; MAX_PROCESSORS],
    phases: Phases,
    processor: u8,
    tick: u64,
    late: u8,
) -> Effect
    ensures { effect_as_numbers result tick facts.entry.requested.now since.new facts.entry.earlier.now
        ≡ done (state_by (record { last = tick; phases = taken_out phases processor }) facts.entry.requested.now
        since.old facts.entry.earlier.now)
        (settled (facts_lent facts.entry) (taken_out phases processor)) late }
{
    let ready = take_out(phases, processor);
    let after = settle_left(facts, ready);
    accept(tick, ready, after, since, late)
}
