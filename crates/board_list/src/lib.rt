// The list of the whole board as bytes: the state, the entry, the ticks waited and the direct waits of each processor.
// `queries` writes it and answers the state, `reach` uses its count of processors, and `query_listing` its size.
#![tactic(auto)]

mod list_fields;
mod list_parts;
mod list_sizes;
mod list_writer;
mod phases;

pub use list_sizes::{list_size, listed};
pub use list_writer::{Columns, write};
pub use phases::{Phase, phase_at};
