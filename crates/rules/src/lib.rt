// The rules of the arbiter, as definitions (specs/): which requests count, when a call is refused, the four steps of
// settling, and what each call changes and returns; and what is lent to a call. `settling`, `call_checks`, `requests` and
// `calls_in_place` carry the rules out, and the theorems of `runs` are about them. Specification, sections 4 and 5.
#![tactic(auto)]

mod calls;
mod states;

pub use calls::{Call, Changed, Done, Reply};
pub use states::{Board, LentArrays, LentBoard, LentFacts, Moment, Phases, State, Terms};
