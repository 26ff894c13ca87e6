// Which resources two entries of a board conflict over, for an integrator who sees that they conflict. Nothing is
// changed.
ghost use Rattle.std.specs.Prelude.{◌≡◌};
ghost use Rattle.conflicts.specs.Sharing.{conflict_as_numbers, over};
ghost use Rattle.queries.specs.Contention.{shared_in, shared_as_numbers, shared_query, shared_of};

use conflicts::{Conflict, conflict_by};
use masks::{Mask, row_at};
use plans::MAX_ENTRIES;
use refusals::{Refusal, refuse_unless};
use rules::{Board, Terms};

// Kept: the names and the widened sets one by one, as the C interface lends them.
// The conflict of two entries, given which entries are writes and the names and widened sets of all entries.
fn conflict_in(
    writes: u64,
    names: &[u64; MAX_ENTRIES],
    widened: &[u64; MAX_ENTRIES],
    first: u8,
    second: u8,
) -> Option<Conflict>
    ensures { conflict_as_numbers result ≡ over (shared_in writes names.now widened.now first second) }
{
    let e = first as u32;
    let f = second as u32;
    let e_write = writes.has(e);
    let f_write = writes.has(f);
    let shared_names = row_at(names, e) & row_at(names, f);
    let shared_widened = row_at(widened, e) & row_at(widened, f);
    conflict_by(
        e_write & f_write,
        !e_write & !f_write,
        shared_names,
        shared_widened,
    )
}

// Clause 7.10: what two entries of a board conflict over, with the board's names and widened sets lent. Refused with
// 12.
#[tactic(auto, unfolding(crate::specs::Contention::shared_of))]
pub fn shared_on(
    terms: Terms,
    names: &[u64; MAX_ENTRIES],
    widened: &[u64; MAX_ENTRIES],
    first: u8,
    second: u8,
) -> Result<Option<Conflict>, Refusal>
    ensures { shared_as_numbers result ≡ shared_of terms names.now widened.now first second }
{
    refuse_unless(first < terms.count && second < terms.count, Refusal::Entry)?;
    Ok(conflict_in(terms.writes, names, widened, first, second))
}

// The same with the board by value.
pub fn shared_by(board: Board, first: u8, second: u8) -> Result<Option<Conflict>, Refusal>
    ensures { shared_as_numbers result ≡ shared_query board first second }
{
    shared_on(board.terms, &board.names, &board.widened, first, second)
}
