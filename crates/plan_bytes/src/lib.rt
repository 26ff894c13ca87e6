// Reads plans from bytes and writes them to bytes. `log_input`, `replay`, `viewer` and `c_fresh` use it.
// Specification, section 2.
#![tactic(auto)]

mod entry_reader;
mod entry_writer;
mod plan_head;
mod plan_reader;
mod plan_room;
mod plan_writer;

pub use plan_reader::{plan_of, read};
pub use plan_writer::write;
