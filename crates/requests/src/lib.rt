// A request enters or leaves, all requests are settled, and an `Effect` contains what changed: two masks, the late mark
// and the phases. `calls_in_place` uses it. Specification, section 4.
#![tactic(auto)]

mod ages;
mod effects;
mod enter_leave;
mod grants;
mod late;
mod merging;
mod placing;
mod stores;

pub use ages::put_last;
pub use effects::Effect;
pub use enter_leave::{enter, leave};
pub use late::{late_mark, length_at};
pub use merging::merge;
