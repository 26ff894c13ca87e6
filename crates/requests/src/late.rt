// The late mark of a hold. Specification, clauses 4.8 and 4.10.
ghost use Rattle.std.specs.Prelude.{◌≡◌, cond, ◌-◌, ltb, get_or};

// Clause 4.8: 1 for a hold that was longer than its entry's length. Clause 4.10: it lasted 0 if the time would run
// backwards.
pub fn late_mark(length: u16, since: u64, tick: u64) -> u8
    ensures { result ≡ cond (ltb length (tick - since)) 1 0 }
{
    u8::from((length as u64) < tick.saturating_sub(since))
}

// The length of an entry, or 0 for one past the last.
pub fn length_at(lengths: &[u16], entry: u8) -> u16
    ensures { result ≡ get_or lengths.now entry 0 }
{
    lengths.get(entry as usize).copied().unwrap_or(0)
}
