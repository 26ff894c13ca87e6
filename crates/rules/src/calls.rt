// A call to the arbiter, and the reply to it. Logs are read as calls, and listings print both.
use crate::states::Moment;
use refusals::Refusal;

// At a tick, a processor requests an entry, completes its request, withdraws a request that does not hold, or completes
// its request and requests an entry in one call.
#[derive(Clone, Copy)]
pub enum Call {
    Issue { processor: u8, entry: u8, tick: u64 },
    Complete { processor: u8, tick: u64 },
    Withdraw { processor: u8, tick: u64 },
    Handover { processor: u8, entry: u8, tick: u64 },
}

// An accepted call's masks and late mark. Bit p of a mask is processor p.
// Kept: the mark is a byte, 0 or 1, as listings and registers show it; both promise their answer for any byte.
#[derive(Clone, Copy)]
pub struct Done {
    pub granted: u32,
    pub entitled: u32,
    pub late: u8,
}

// What a call returns: what it did, or the refusal.
pub type Reply = Result<Done, Refusal>;

// What a call in place returns: the reply, and the moment after it.
#[derive(Clone, Copy)]
pub struct Changed {
    pub reply: Reply,
    pub moment: Moment,
}
