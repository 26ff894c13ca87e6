// Direct waits: the processors that a request waits for, for one processor and for all. `queries` uses it.
// Specification, clause 7.2.
#![tactic(auto)]

mod direct_waits;

pub use direct_waits::{waits_of, waits_of_all};
