// The queries on a board and a state (specification, section 7): the state of a processor, its direct waits, the list
// of the whole board, and what two entries conflict over. specs/ also defines reach, which the crate `reach` computes.
// `c_queries`, `reach` and the test programs `query_listing` and `conflict_listing` use it.
#![tactic(auto)]

mod board_queries;
mod contention;
mod lending;
mod phase_queries;
mod query_checks;
mod wait_queries;

pub use board_list::Phase;
pub use board_queries::{list_board, list_board_in_place};
pub use contention::{shared_by, shared_on};
pub use lending::lent;
pub use phase_queries::{phase_in_place, phase_of};
pub use query_checks::check_processor;
pub use wait_queries::{direct_rows, direct_waits, direct_waits_in_place};
