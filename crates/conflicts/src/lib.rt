// What the entries of a plan conflict over, and for each entry the row of entries that it conflicts with. `boards`
// computes the rows once for all calls, and `queries` asks for the conflict of two entries.
#![tactic(auto)]

mod sharing;
mod widening;

ghost use Rattle.std.specs.Prelude.{◌≡◌, cond, ◌<◌, ltb};
ghost use Rattle.masks.specs.Sets.{added, mask_of};
ghost use Rattle.plans.specs.Entries.{max_entries, counted_entries, entry_at};
ghost use Rattle.conflicts.specs.Widening.{widened_set};
ghost use Rattle.conflicts.specs.Conflict.{in_conflict, conflicts_of};

use masks::Mask;
use plans::{Entry, MAX_ENTRIES, Plan};
use sharing::pair_conflict;
pub use sharing::{Conflict, conflict_by};
use std::array;
use widening::widened_set;

// Kept: three arrays by value, a named form, and a board has them in the layout of C.
// The names of each entry; the widened set of each write, and the names of each read; and the rows: bit j of row i is
// set if entries i and j conflict.
#[derive(Clone, Copy)]
pub struct Conflicts {
    pub names: [u64; MAX_ENTRIES],
    pub widened: [u64; MAX_ENTRIES],
    pub rows: [u64; MAX_ENTRIES],
}

// The widened set of entry i, or the empty set past the count.
fn widen_entry(plan: Plan, i: usize) -> u64
    requires { i < max_entries }
    ensures { result ≡ cond (ltb i plan.count) (widened_set (counted_entries plan) (entry_at plan i)) 0 }
{
    if plan.count as usize <= i {
        return 0;
    }
    let entry = plan.entries[i];
    widened_set(plan, entry)
}

fn widen_all(plan: Plan) -> [u64; MAX_ENTRIES]
    ensures { result ≡ (conflicts_of plan).widened }
{
    array::from_fn(|i| widen_entry(plan, i))
}

// The set with the place added, if the test holds.
// Kept: not one with the like of it in `settling`, which adds to sets of processors and asks for a place in them.
fn add_if(set: u64, place: usize, test: bool) -> u64
    requires { place < max_entries }
    ensures { result ≡ cond test (added set place) set }
{
    if test { set.with(place as u32) } else { set }
}

// The entries that entry i conflicts with.
fn row(plan: Plan, widened: [u64; MAX_ENTRIES], i: usize) -> u64
    requires widens { widened ≡ (conflicts_of plan).widened }
    requires within { i < max_entries }
    ensures { result ≡ mask_of max_entries (in_conflict plan i) }
{
    let count = plan.count as usize;
    let entry = plan.entries[i];
    let mut out: u64 = 0;
    for j in 0..MAX_ENTRIES {
        let conflict = pair_conflict(entry, widened[i], plan.entries[j], widened[j]);
        out = add_if(out, j, (i < count) & (j < count) & conflict.is_some());
    }
    out
}

fn all_rows(plan: Plan, widened: [u64; MAX_ENTRIES]) -> [u64; MAX_ENTRIES]
    requires { widened ≡ (conflicts_of plan).widened }
    ensures { result ≡ (conflicts_of plan).rows }
{
    array::from_fn(|i| row(plan, widened, i))
}

// The names of entry i, or none past the count.
// Kept: with `get(i).map_or(..)` in the closure of `names_of`, the proof stopped at the value that the closure returns.
fn counted_names(entry: Entry, i: usize, count: u8) -> u64
    ensures { result ≡ cond (ltb i count) entry.set 0 }
{
    if i < count as usize { entry.set } else { 0 }
}

fn names_of(plan: Plan) -> [u64; MAX_ENTRIES]
    ensures { result ≡ (conflicts_of plan).names }
{
    array::from_fn(|i| counted_names(plan.entries[i], i, plan.count))
}

// Clause 3.3: the conflicts of all pairs of entries at once, for any plan value.
pub fn conflicts_of(plan: Plan) -> Conflicts
    ensures { result ≡ conflicts_of plan }
{
    let widened = widen_all(plan);
    Conflicts {
        names: names_of(plan),
        widened,
        rows: all_rows(plan, widened),
    }
}
