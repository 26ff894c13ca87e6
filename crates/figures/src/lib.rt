// The two figures of a plan: the longest time that a read waits, and the longest that a write waits. `listings` writes
// them in the first line of a listing, and `viewer` gives them to C.
#![tactic(auto)]

ghost use Rattle.std.specs.Prelude.{◌≡◌, Bool, ◌<◌};
ghost use Rattle.plans.specs.declared.Entry.{Entry};
ghost use Rattle.plans.specs.Figures.{longest, figures_of};

use plans::{Entry, Figures, Plan, is_read, is_write};

// The longest length of the entries that are asked for, or 0 if there are none.
fn longest_of<F: Fn(Entry) -> bool>(entries: &[Entry], is_asked: F) -> u32
    requires { F.IsAlwaysCallable is_asked }
    ensures is { (asked : Entry → Bool) → ((e : Entry) (r : Bool) → F.post is_asked e r → r ≡ asked e)
        → result ≡ longest asked entries.now }
    ensures small { result < 65536 }
{
    let mut best = 0;
    for entry in entries {
        if is_asked(*entry) {
            best = best.max(entry.length as u32);
        }
    }
    best
}

// The longest read and write lengths and the two figures, for any plan value. `plan_checks::check` decides whether the
// plan is accepted.
pub fn figures_of(plan: Plan) -> Figures
    ensures { result ≡ figures_of plan }
{
    let entries = plan.counted_entries();
    let longest_read = longest_of(entries, |entry| is_read(entry));
    let longest_write = longest_of(entries, |entry| is_write(entry));
    let read = longest_read + longest_write;
    let others = plan.processors.saturating_sub(1);
    Figures {
        longest_read,
        longest_write,
        read,
        write: others as u32 * read,
    }
}
