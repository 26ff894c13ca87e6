// The four steps of settling, carried out on masks, and which requests count. `requests` and `waits` use it, and so do
// `calls_in_place`, `arbiter` and `queries`. Specification, section 5 and clause 4.10.
#![tactic(auto)]

mod conflict_walks;
mod counted_requests;
mod known_requests;
mod picking;
mod steps;

pub use conflict_walks::those_in;
pub use counted_requests::clean;
pub use known_requests::ALL;
pub use steps::settle;
