// The effect of a request that enters or leaves, from the phases before and after settling: who began to hold and who
// became entitled. Specification, clauses 4.6 to 4.8.
ghost use Rattle.std.specs.Prelude.{◌≡◌, List, ℕ};
ghost use Rattle.rules.specs.Calls.{done};
ghost use Rattle.rules.specs.InPlace.{state_by};
ghost use Rattle.requests.specs.Effect.{effect_as_numbers};

use crate::ages::stamp;
use crate::effects::Effect;
use masks::without32;
use plans::MAX_PROCESSORS;
use rules::{Done, Phases};

// The two masks. In `before` the request has entered or left, and `after` is settled. Those that began to hold get this
// tick.
pub fn accept(
    tick: u64,
    before: Phases,
    after: Phases,
    since: &mut [u64; MAX_PROCESSORS],
    late: u8,
) -> Effect
    ensures { (requested : List ℕ) (earlier : List ℕ)
        → effect_as_numbers result tick requested since.new earlier
        ≡ done (state_by (record { last = tick; phases = before }) requested since.old earlier)
        after late }
{
    let granted = without32(after.holding, before.holding);
    stamp(since, granted, tick);
    Effect {
        done: Done {
            granted,
            entitled: without32(after.entitled, before.entitled),
            late,
        },
        phases: after,
    }
}
