// Which requests of a state count. Specification, clause 4.10.
ghost use Rattle.std.specs.Prelude.{◌≡◌};
ghost use Rattle.masks.specs.Sets.{mask_of};
ghost use Rattle.plans.specs.Entries.{max_processors};
ghost use Rattle.rules.specs.CountedRequests.{has_processor, cleaned};

use crate::known_requests::{ALL, entries_below};
use masks::without32;
use plans::MAX_PROCESSORS;
use rules::{Phases, Terms};

// The processors of the plan.
fn processors_of(terms: Terms) -> u32
    ensures { result ≡ mask_of max_processors (has_processor terms) }
{
    let m = terms.processors as u32;
    if m < MAX_PROCESSORS as u32 {
        (1 << m) - 1
    } else {
        ALL
    }
}

// Clause 4.10: the phases of the requests that count. Each request is in at most one phase. Every call begins with it,
// so it is inlined, and the entries are not copied.
#[inline(always)]
pub fn clean(terms: Terms, requested: [u8; MAX_PROCESSORS], phases: Phases) -> Phases
    ensures { result ≡ cleaned terms requested phases }
{
    let counted = entries_below(processors_of(terms), terms.count, &requested);
    Phases {
        waiting: counted & without32(phases.waiting, phases.entitled | phases.holding),
        entitled: counted & without32(phases.entitled, phases.holding),
        holding: counted & phases.holding,
    }
}
