// The phases after a request enters or leaves, and after all requests are settled. A processor that a state has no
// place for changes nothing. Specification, clauses 4.4 and 5.2.
ghost use Rattle.std.specs.Prelude.{◌≡◌};
ghost use Rattle.rules.specs.InPlace.{facts_lent};
ghost use Rattle.rules.specs.Settling.{settled};
ghost use Rattle.rules.specs.Acts.{put_in, taken_out};

use crate::ages::all_but;
use masks::Mask;
use plans::MAX_PROCESSORS;
use rules::{LentFacts, Phases};
use settling::settle;

// The phases after the processor's new request enters. It waits.
fn put_in(phases: Phases, processor: u8) -> Phases
    ensures { result ≡ put_in phases processor }
{
    Phases {
        waiting: phases.waiting.with(processor as u32),
        entitled: phases.entitled,
        holding: phases.holding,
    }
}

// The phases after the processor's new request enters and all are settled. If nobody else is active and nobody is
// earlier, it holds, read or write, and no row is read.
#[inline]
pub fn settle_new(facts: LentFacts<'_>, phases: Phases, processor: u8) -> Phases
    ensures { result ≡ settled (facts_lent facts.entry) (put_in phases processor) }
{
    if phases.waiting | phases.entitled | phases.holding == 0
        && (processor as usize) < MAX_PROCESSORS
        && facts.earlier[processor as usize] == 0
    {
        return Phases {
            waiting: 0,
            entitled: 0,
            holding: 0.with(processor as u32),
        };
    }
    settle(facts, put_in(phases, processor))
}

// The phases after the processor's request leaves.
pub fn take_out(phases: Phases, processor: u8) -> Phases
    ensures { result ≡ taken_out phases processor }
{
    let others = all_but(processor);
    Phases {
        waiting: phases.waiting & others,
        entitled: phases.entitled & others,
        holding: phases.holding & others,
    }
}

// The phases of the requests that are left, settled. If nobody waits or is entitled there is nothing to settle. A new
// request always waits, so only this function needs the test.
#[inline]
pub fn settle_left(facts: LentFacts<'_>, phases: Phases) -> Phases
    ensures { result ≡ settled (facts_lent facts.entry) phases }
{
    if phases.waiting | phases.entitled == 0 {
        phases
    } else {
        settle(facts, phases)
    }
}
