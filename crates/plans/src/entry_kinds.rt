// Whether an entry reads or writes, and which entries of a plan count. Specification, clauses 2.5 and 2.6.
ghost use Rattle.std.specs.Prelude.{◌≡◌, ◌≤◌, min, length};
ghost use Rattle.plans.specs.Entries.{max_entries, is_read, is_write, counted_entries};

use crate::{Entry, MAX_ENTRIES, Plan};

// Clause 2.6: kind 0 reads, and kind 1 writes.
pub fn is_read(entry: Entry) -> bool
    ensures { result ≡ is_read entry }
{
    entry.kind == 0
}

pub fn is_write(entry: Entry) -> bool
    ensures { result ≡ is_write entry }
{
    entry.kind == 1
}

// How many entries count: never more than 64.
pub fn counted_of(count: u8) -> u8
    ensures { result ≡ min count max_entries }
{
    count.min(MAX_ENTRIES as u8)
}

impl Plan {
    // Clause 2.5: the entries that count.
    pub fn counted_entries(&self) -> &[Entry]
        ensures are { result.now ≡ counted_entries self.now }
        ensures few { length result.now ≤ max_entries }
    {
        &self.entries[..counted_of(self.count) as usize]
    }
}
