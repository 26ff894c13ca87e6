// A log as it arrives: each read takes the bytes that are there, and waits for no more than are needed to go on. No
// contract can say what a read returns, so these functions promise what every choice of a read has in common
// (`specs/Reads.antt`). `lockreplay`, `probe_io`, `conflict_listing`, `query_listing` and `register_listing` use it.
#![tactic(auto)]

mod failures;
mod front_bytes;
mod needed_input;
mod reads;

pub use failures::tell;
pub use front_bytes::{bring_to_front, copy_in};
pub use needed_input::due_size;
pub use reads::{Fed, fill_plan, fill_to};
