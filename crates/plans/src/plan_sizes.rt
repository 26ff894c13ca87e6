// How many bytes an entry, a plan and a mask take. Specification, clauses 2.6, 7.4, 7.7 and 9.9.
ghost use Rattle.std.specs.Prelude.{◌≡◌};
ghost use Rattle.plans.specs.Entries.{entry_size_of, mask_size_for, plan_size};

use crate::{ENTRY_BYTES, Entry, PLAN_COUNTS_BYTES, Plan};

pub fn entry_size(entry: Entry) -> usize
    ensures { result ≡ entry_size_of entry }
{
    ENTRY_BYTES
}

// The bytes of a plan: its counts and its counted entries.
pub fn plan_size(plan: Plan) -> usize
    ensures { result ≡ plan_size plan }
{
    let mut size = PLAN_COUNTS_BYTES;
    for entry in plan.counted_entries() {
        size += entry_size(*entry);
    }
    size
}

// The bytes of a mask, printed or laid out, for a plan with this many processors.
pub fn mask_size(processors: u8) -> usize
    ensures { result ≡ mask_size_for processors }
{
    if processors <= 16 { 2 } else { 4 }
}
