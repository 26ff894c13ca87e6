// The widened set of a write, which is compared with those of other writes: its names, and the names of the reads that
// share a resource with it. Specification, clause 3.1.
ghost use Rattle.std.specs.Prelude.{◌≡◌, cond, ◌&&◌};
ghost use Rattle.masks.specs.Sets.{meets};
ghost use Rattle.plans.specs.Entries.{is_read, counted_entries};
ghost use Rattle.conflicts.specs.Widening.{widen, widened_set};

use masks::meet64;
use plans::{Entry, Plan, is_read, is_write};

// Clause 3.1: what an entry adds to the widened set of these names: its own names, if it is a read that shares a
// resource with them.
fn brought(entry: Entry, names: u64) -> u64
    ensures { result ≡ cond (is_read entry && meets entry.set names) entry.set 0 }
{
    if is_read(entry) & meet64(entry.set, names) {
        entry.set
    } else {
        0
    }
}

// The names widened by the counted entries, from the last one to the first.
// Clause 3.1: every entry is compared with the names alone, not with what was added.
fn widen_names(plan: Plan, names: u64) -> u64
    ensures { result ≡ widen names (counted_entries plan) }
{
    plan.counted_entries()
        .iter()
        .rfold(names, |out, entry| out | brought(*entry, names))
}

// Clause 3.1: the widened set of an entry of the plan. For a read it is its names, and is not used.
pub fn widened_set(plan: Plan, entry: Entry) -> u64
    ensures { result ≡ widened_set (counted_entries plan) entry }
{
    if is_write(entry) {
        widen_names(plan, entry.set)
    } else {
        entry.set
    }
}
