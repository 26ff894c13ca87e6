// Numbers as bytes in lent buffers, low byte first: reading them, writing them, and checking that there are enough
// bytes or enough room. Every crate that reads or writes bytes uses it. Specification, clauses 2.1, 2.9, 2.12 and 8.1.
#![tactic(auto)]

mod byte_reads;
mod number_reads;
mod rooms;
mod storing;

pub use byte_reads::{byte_at, check_due};
pub use number_reads::read_number;
pub use rooms::{check_room, has_room};
pub use storing::write_number;
