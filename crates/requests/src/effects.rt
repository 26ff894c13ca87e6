// The effect of a request that enters or leaves. Specification, clauses 4.7 and 4.8.
use rules::{Done, Phases};

// Who began to hold, who became entitled, whether the hold that ended was late; and the phases afterwards.
#[derive(Clone, Copy)]
pub struct Effect {
    pub done: Done,
    pub phases: Phases,
}
