// For C and Rust: the four calls of the arbiter on memory that the caller owns. Its parts are lent as pointers, and
// only the counts and the phases are copied. `c_calls_c` exports these functions, and include/bittmelon.h declares
// them. Specification, sections 4 and 11.
// Kept: four functions with the parts one by one, as each is an exported name with the parameters of the C interface.
#![tactic(auto)]

mod c_handing_over;
mod c_replies;
mod complete;
mod issue;
mod withdraw;

pub use c_handing_over::bittmelon_handover_parts;
pub use c_replies::CReply;
pub use complete::bittmelon_complete_parts;
pub use issue::bittmelon_issue_parts;
pub use withdraw::bittmelon_withdraw_parts;
