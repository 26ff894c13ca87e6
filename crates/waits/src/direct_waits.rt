// The processors that a request waits for directly, using masks of processors and the parts of a board and a state. An
// entry past the rows conflicts with none. Specification, clause 7.2.
ghost use Rattle.std.specs.Prelude.{◌≡◌, cond, true, ℕ, ◌<◌, get_or};
ghost use Rattle.masks.specs.Sets.{bit, mask_of};
ghost use Rattle.masks.specs.Tabulation.{tabulate};
ghost use Rattle.plans.specs.Entries.{max_processors};
ghost use Rattle.rules.specs.InPlace.{facts_lent};
ghost use Rattle.waits.specs.Waits.{waits_in, waits_of};
ghost use Rattle.waits.specs.inner.Writers.{writers_in};

use masks::{EachPlace, Mask, join_if, row_at};
use plans::MAX_PROCESSORS;
use rules::{LentFacts, Phases};
use settling::those_in;

// The active processors whose requests are writes.
fn writers_of(facts: LentFacts<'_>, phases: Phases) -> u32
    ensures { result ≡ writers_in (facts_lent facts.entry) phases }
{
    those_in(
        facts.requested,
        facts.terms.writes,
        phases.waiting | phases.entitled | phases.holding,
    )
}

// The direct waits of processor p, given the writers and whether it is one of them: those that it waits for in each of
// the four cases, if their requests conflict with its own.
#[inline(always)]
fn waits_from(facts: LentFacts<'_>, phases: Phases, writers: u32, p: u32, write: bool) -> u32
    requires { (p < max_processors) × (write ≡ bit writers p) }
    ensures { writers ≡ writers_in (facts_lent facts.entry) phases
        → result ≡ mask_of max_processors (waits_in (facts_lent facts.entry) phases p) }
{
    let waiting = phases.waiting.has(p);
    let entitled = phases.entitled.has(p);
    let read = !write;
    let first = join_if(0, phases.holding & writers, entitled & read);
    let second = join_if(first, phases.entitled & writers, waiting & read);
    let third = join_if(second, phases.holding & !writers, entitled & write);
    let others = join_if(third, facts.earlier[p as usize] & writers, waiting & write);
    let rows = facts.rows;
    let row = row_at(rows, facts.requested[p as usize] as u32);
    those_in(facts.requested, row, others)
}

// The direct waits of processor p, as a mask. A number past the last processor waits for nobody.
pub fn waits_of(facts: LentFacts<'_>, phases: Phases, p: u32) -> u32
    ensures { result ≡ waits_of (facts_lent facts.entry) phases p }
{
    if p >= MAX_PROCESSORS as u32 {
        return 0;
    }
    let writers = writers_of(facts, phases);
    waits_from(facts, phases, writers, p, writers.has(p))
}

// Stores the direct waits of each candidate in its place. Either all candidates are writers or none is. It is inlined, so
// that the compiled walk through the readers leaves out the cases of the writers, and the other one theirs.
#[inline(always)]
fn store_waits(
    facts: LentFacts<'_>,
    phases: Phases,
    writers: u32,
    candidates: u32,
    write: bool,
    waits: &mut [u32; MAX_PROCESSORS],
)
    requires writers { writers ≡ writers_in (facts_lent facts) phases }
    requires alike { (p : ℕ) → bit candidates p ≡ true → write ≡ bit writers p }
    ensures { waits.new ≡ tabulate max_processors (λ p. cond (bit candidates p)
        (mask_of max_processors (waits_in (facts_lent facts.entry) phases p)) (get_or waits.old p 0)) }
{
    for p in EachPlace(candidates) {
        waits[p as usize] = waits_from(facts, phases, writers, p, write);
    }
}

// The direct waits of every processor. The writers are computed once for all of them. A processor whose request neither
// waits nor is entitled waits for nobody, so only the others are candidates.
pub fn waits_of_all(facts: LentFacts<'_>, phases: Phases) -> [u32; MAX_PROCESSORS]
    ensures { result
        ≡ tabulate max_processors (λ p. mask_of max_processors (waits_in (facts_lent facts.entry) phases p)) }
{
    let writers = writers_of(facts, phases);
    let unsatisfied = phases.waiting | phases.entitled;
    let reads = unsatisfied & !writers;
    let writes = unsatisfied & writers;
    let mut out = [0; MAX_PROCESSORS];
    store_waits(facts, phases, writers, reads, false, &mut out);
    store_waits(facts, phases, writers, writes, true, &mut out);
    out
}
