// Boards and states in memory that a program in C or Rust owns: how they are read and stored there, and the answers
// that the program gets in numbers. The crates with the exported functions use it: `c_fresh`, `c_calls` and
// `c_queries`. Specification, section 11.
#![tactic(auto)]

mod c_answers;
mod parts;

pub use c_answers::CAnswer;
pub use parts::{moment_of, phases_of, store_moment, terms_of};
