// Settling: which requests become entitled, and which begin to hold, after a request entered or left. It uses masks of
// processors and changes only the phases. Specification, section 5.
ghost use Rattle.std.specs.Prelude.{◌≡◌, length};
ghost use Rattle.plans.specs.Entries.{max_entries};
ghost use Rattle.rules.specs.InPlace.{facts_lent};
ghost use Rattle.rules.specs.Settling.{settled};
ghost use Rattle.rules.specs.inner.Moves.{Table, Known, known_in};

use crate::conflict_walks::{first_in_queue, known_among, unopposed};
use crate::known_requests::{ALL, entries_below};
use plans::MAX_PROCESSORS;
use rules::{LentFacts, Phases};

// The processors whose requests' entries have a row. Every entry below 64 has one.
fn known_in(rows: &[u64], requested: &[u8; MAX_PROCESSORS]) -> u32
    requires { length rows.now ≡ max_entries }
    ensures those { result ≡ known_in requested.now }
    ensures known { Known requested.now result }
    ensures table { Table rows.now }
{
    entries_below(ALL, rows.len() as u8, requested)
}

// The phases after the four steps. Each step uses the masks that the step before it left. Of the known processors, w
// are the active ones whose requests are writes, and r are the others.
pub fn settle(facts: LentFacts<'_>, phases: Phases) -> Phases
    ensures { result ≡ settled (facts_lent facts.entry) phases }
{
    let mut waiting = phases.waiting & ALL;
    let mut entitled = phases.entitled & ALL;
    let mut holding = phases.holding & ALL;
    let rows = facts.rows;
    let known = known_in(rows, facts.requested);
    let w = known_among(
        facts.requested,
        facts.terms.writes,
        (waiting | entitled | holding) & known,
    );
    let r = known & !w;
    // Step 1 (5.3): reads that conflict with no holding write, if they are entitled, or if they wait and conflict with
    // no entitled write either. A request that is not known conflicts with none.
    let ahead = unopposed(facts, waiting & r, entitled & w);
    let free = unopposed(facts, (entitled & r) | ahead, holding & w);
    let reads = ((waiting | entitled) & !known) | free;
    waiting &= !reads;
    entitled &= !reads;
    holding |= reads;
    // Step 2 (5.4): waiting writes that conflict with no holding write, entitled read or earlier unsatisfied write.
    let clear = unopposed(facts, waiting & w, (holding & w) | (entitled & r));
    let next = first_in_queue(facts, clear, (waiting | entitled) & w);
    waiting &= !next;
    entitled |= next;
    // Step 3 (5.5): entitled writes that conflict with no holding read.
    let granted = unopposed(facts, entitled & w, holding & r);
    waiting &= !granted;
    entitled &= !granted;
    holding |= granted;
    // Step 4 (5.6): waiting reads that conflict with a holding write and with no entitled write.
    let clear = unopposed(facts, waiting & r, holding & w);
    let behind = unopposed(facts, waiting & r & !clear, entitled & w);
    Phases {
        waiting: waiting & !behind,
        entitled: entitled | behind,
        holding,
    }
}
