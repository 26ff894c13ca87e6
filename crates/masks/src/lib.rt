// Sets of small numbers as the bits of an integer: u32 for processors, u64 for resources and entries. The definitions
// are in specs/, and their laws for any width are in proofs/. The crates that check plans, find conflicts, settle
// requests and answer queries use it.
#![tactic(auto)]

mod each_place;
mod mask;
mod masks32;
mod masks64;
mod tabulation;

pub use each_place::EachPlace;
pub use mask::Mask;
pub use masks32::{join_if, remove32, without32};
pub use masks64::{below64, meet64};
pub use tabulation::row_at;
