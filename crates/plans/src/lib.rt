// The plan value, three counts and up to 64 entries, with its sizes and the definitions of acceptance, figures and
// bytes. Any caller can build any plan value. `plan_checks` decides which values are accepted, `figures` computes the
// two figures, and `plan_bytes` reads and writes plans.
#![tactic(auto)]

use refusals::Refusal;

mod entry_kinds;
mod plan_sizes;

pub use entry_kinds::{counted_of, is_read, is_write};
pub use plan_sizes::{entry_size, mask_size, plan_size};

// The most processors of a plan, and so the most requests of a state.
pub const MAX_PROCESSORS: usize = 32;

// The most resources of a plan.
pub const MAX_RESOURCES: usize = 64;

// The most entries of a plan.
pub const MAX_ENTRIES: usize = 64;

// The bytes of the three counts.
pub const PLAN_COUNTS_BYTES: usize = 3;

// The bytes of an entry's kind, names and length.
pub const ENTRY_BYTES: usize = 11;

// The most bytes of an entry.
pub const MAX_ENTRY_BYTES: usize = ENTRY_BYTES;

// The most bytes of a plan.
pub const MAX_PLAN_BYTES: usize = PLAN_COUNTS_BYTES + MAX_ENTRY_BYTES * MAX_ENTRIES;

// What a request asks for: kind 0 reads and kind 1 writes, bit r of the set names resource r, length is in ticks.
// Kept: the kind is a byte, since any plan value can be made, and one of another kind is refused with 6 (clause 2.10).
#[derive(Clone, Copy)]
pub struct Entry {
    pub kind: u8,
    pub set: u64,
    pub length: u16,
}

// Entries from the count on are ignored.
// Kept: an array with a count beside it, since there is no heap and any plan value can be made (clause 2.10).
#[derive(Clone, Copy)]
pub struct Plan {
    pub processors: u8,
    pub resources: u8,
    pub count: u8,
    pub entries: [Entry; MAX_ENTRIES],
}

// A plan that was read, and how many bytes it took.
#[derive(Clone, Copy)]
pub struct Read {
    pub plan: Plan,
    pub bytes: usize,
}

// The longest lengths, Lr and Lw, and the two figures: the longest time that a read and a write wait.
#[derive(Clone, Copy)]
pub struct Figures {
    pub longest_read: u32,
    pub longest_write: u32,
    pub read: u32,
    pub write: u32,
}
