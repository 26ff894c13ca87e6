// Reach: the processors that one waits for directly or through others, and the scratch that contains the reach of every
// processor. `c_queries` uses it. Specification, clauses 7.3 and 7.4.
#![tactic(auto)]

mod reach_checks;
mod reach_queries;
mod reaching;
mod row_words;

pub use reach_queries::{reach, reach_in_place};
pub use row_words::{MAX_SCRATCH_BYTES, room_of};
