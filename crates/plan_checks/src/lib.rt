// Which plan values are accepted, and which number the others are refused with. `boards` and `plan_bytes` use it.
// Specification, section 2 and clause 8.1.
#![tactic(auto)]

mod acceptance;
mod plan_counts;
mod plan_entries;

pub use acceptance::check;
pub use plan_counts::{check_entry_count, check_processors, check_resources};
pub use plan_entries::{check_kind, check_length, check_set};
