// What two entries conflict over: the lowest-numbered resource that they share, and how many they share. `conflicts_of`
// uses it for all pairs of a plan, and `queries::shared_by` for two entries of a board. Specification, clauses 3.2 and
// 3.4.
ghost use Rattle.std.specs.Prelude.{◌≡◌, ◌&&◌};
ghost use Rattle.std.specs.Int.Bits.{bit_and};
ghost use Rattle.plans.specs.Entries.{is_read, is_write};
ghost use Rattle.conflicts.specs.Sharing.{shared_by, conflict_as_numbers, over};

use plans::{Entry, is_read, is_write};

// What two entries conflict over: the lowest-numbered of the shared resources, and how many there are.
#[derive(Clone, Copy)]
pub struct Conflict {
    pub lowest: u8,
    pub count: u8,
}

// The conflict over a set of shared resources.
pub fn conflict_over(set: u64) -> Option<Conflict>
    ensures { conflict_as_numbers result ≡ over set }
{
    if set == 0 {
        return None;
    }
    Some(Conflict {
        lowest: u64::trailing_zeros(set) as u8,
        count: u64::count_ones(set) as u8,
    })
}

// Kept: two tests and not the kinds of the entries, since a board keeps only which entries are writes.
// Clause 3.2: the conflict of two entries, given whether both are writes, whether both are reads, the names that they
// share, and what their widened sets share.
pub fn conflict_by(writes: bool, reads: bool, names: u64, widened: u64) -> Option<Conflict>
    ensures { conflict_as_numbers result ≡ over (shared_by writes reads names widened) }
{
    if writes {
        return conflict_over(widened);
    }
    if reads {
        return None;
    }
    conflict_over(names)
}

// Clause 3.2: two writes conflict over their widened sets, a read and a write over their names, two reads never.
pub fn pair_conflict(e: Entry, e_widened: u64, f: Entry, f_widened: u64) -> Option<Conflict>
    ensures { conflict_as_numbers result
        ≡ over (shared_by (is_write e && is_write f) (is_read e && is_read f) (bit_and e.set f.set)
        (bit_and e_widened f_widened)) }
{
    let writes = is_write(e) & is_write(f);
    let reads = is_read(e) & is_read(f);
    let names = e.set & f.set;
    let widened = e_widened & f_widened;
    conflict_by(writes, reads, names, widened)
}
