// The fields of a listing line, stored in a lent buffer if they fit: a word and a number; the tick, letter and
// processor of a call; masks. `listings` makes its lines of them. Specification, section 9.
// Kept: a buffer and a place stay two parameters, since the place moves on from field to field and the buffer does not.
// Kept: a size of 0 says that nothing was stored, as `placed_size` and `field_size` define it, and sizes add up as they are.
#![tactic(auto)]

mod call_leads;
mod mask_fields;
mod number_fields;

pub use call_leads::{Lead, put_lead};
pub use mask_fields::{MaskFormat, put_masks};
pub use number_fields::{put_labelled, put_line_end};
