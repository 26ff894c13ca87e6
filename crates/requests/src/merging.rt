// Two effects merged into one answer. Specification, clause 4.7.
ghost use Rattle.std.specs.Prelude.{◌≡◌, List, ℕ};
ghost use Rattle.rules.specs.Calls.{both};
ghost use Rattle.requests.specs.Effect.{effect_as_numbers};

use crate::effects::Effect;
use rules::Done;

// The second comes right after the first. A processor that is no longer entitled after both is not in the entitled
// mask.
pub fn merge(first: Effect, second: Effect) -> Effect
    ensures { (tick : ℕ) (requested requested₂ : List ℕ)
        (since since₂ : List ℕ) (earlier earlier₂ : List ℕ)
        → effect_as_numbers result tick requested₂ since₂ earlier₂
        ≡ both (effect_as_numbers first tick requested since earlier)
        (effect_as_numbers second tick requested₂ since₂ earlier₂) }
{
    let completed = first.done;
    let issued = second.done;
    let phases = second.phases;
    Effect {
        done: Done {
            granted: completed.granted | issued.granted,
            entitled: (completed.entitled | issued.entitled) & phases.entitled,
            late: completed.late,
        },
        phases,
    }
}
