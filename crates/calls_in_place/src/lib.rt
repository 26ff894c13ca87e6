// The four calls on arrays that the caller lends: each call is checked, and then carried out in place or refused with
// nothing changed. `arbiter`, `c_calls`, `replay` and `bench_library` make their calls with it. Specification, section
// 4.
#![tactic(auto)]

mod answers;
mod any_call;
mod completing;
mod handing_over;
mod issuing;
mod withdrawing;

pub use any_call::answer_in_place;
pub use completing::complete_in_place;
pub use handing_over::handover_in_place;
pub use issuing::issue_in_place;
pub use withdrawing::withdraw_in_place;
