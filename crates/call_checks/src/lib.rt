// When a call is refused, and with which number. `calls_in_place` checks every call with it. Specification, clauses 4.5
// and 8.2.
// Kept: the last tick and the phases are no `Moment`: the phases are those of the requests that count, and not a state's.
#![tactic(auto)]

mod conditions;
mod handover_checks;
mod issue_checks;
mod leave_checks;

pub use handover_checks::check_handover;
pub use issue_checks::check_issue;
pub use leave_checks::{check_complete, check_withdraw};
