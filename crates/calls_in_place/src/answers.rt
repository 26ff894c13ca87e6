// What a call in place returns: the answer to an accepted call, or the refusal with the moment unchanged.
ghost use Rattle.std.specs.Prelude.{◌≡◌, List, ℕ};
ghost use Rattle.refusals.specs.Number.{number_of};
ghost use Rattle.requests.specs.Effect.{effect_as_numbers};
ghost use Rattle.rules.specs.Replies.{refused_with};
ghost use Rattle.rules.specs.InPlace.{state_by, answer_by};

use refusals::Refusal;
use requests::Effect;
use rules::{Changed, Moment};

pub fn accepted(carried: Effect, tick: u64) -> Changed
    ensures { (requested : List ℕ) (since : List ℕ) (earlier : List ℕ)
        → answer_by result requested since earlier ≡ effect_as_numbers carried tick requested since earlier }
{
    Changed {
        reply: Ok(carried.done),
        moment: Moment {
            last: tick,
            phases: carried.phases,
        },
    }
}

pub fn refused(refusal: Refusal, moment: Moment) -> Changed
    ensures { (requested : List ℕ) (since : List ℕ) (earlier : List ℕ) → answer_by result requested since earlier
        ≡ record { reply = refused_with (number_of refusal); state = state_by moment requested since earlier } }
{
    Changed {
        reply: Err(refusal),
        moment,
    }
}
