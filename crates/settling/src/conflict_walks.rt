// Whose requests conflict, using masks of processors and 64-bit sets of entries. A row contains the entries that an
// entry conflicts with (specification, clause 5.7). Every walk goes through the processors of a mask one by one. Except
// in `those_in`, the masks contain known processors: there is a row, and a place in a set, for the entry of each.
// Kept: `p < max_processors` and `Known` in the clauses. They are facts of a walk's place and mask, which it takes apart.
ghost use Rattle.std.specs.Prelude.{◌≡◌, ◌&&◌, ℕ, ◌<◌, get_or};
ghost use Rattle.masks.specs.Sets.{bit, some, meets, mask_of};
ghost use Rattle.plans.specs.Entries.{max_processors, max_entries};
ghost use Rattle.rules.specs.Requests.{is_earlier, against};
ghost use Rattle.rules.specs.InPlace.{facts_lent};
ghost use Rattle.rules.specs.inner.Moves.{Known, unopposed_in, first_in_line};

use crate::picking::those;
use masks::{EachPlace, meet64};
use plans::{MAX_ENTRIES, MAX_PROCESSORS};
use rules::LentFacts;

// ---- one processor

// Whether the entry of a processor's request is in the set.
#[tactic(auto, unfolding(masks::specs::Sets::bit))]
fn has_entry(requested: &[u8; MAX_PROCESSORS], set: u64, p: u32) -> bool
    requires { (p < max_processors) × (get_or requested.now p 0 < max_entries) }
    ensures { result ≡ bit set (get_or requested.now p 0) }
{
    (set >> requested[p as usize]) % 2 == 1
}

// Whether the set contains the entry, which may lie past its places. With `&` in place of `&&` the compiled code branches
// on neither test: which entries a row contains is hard to predict.
fn is_in(set: u64, entry: u8) -> bool
    ensures { result ≡ bit set entry }
{
    (entry < MAX_ENTRIES as u8) & ((set >> (entry % MAX_ENTRIES as u8)) % 2 == 1)
}

// The entries that a processor's request conflicts with.
fn row_at(facts: LentFacts<'_>, p: u32) -> u64
    requires { (p < max_processors) × (get_or facts.requested.now p 0 < max_entries) }
    ensures { result ≡ get_or facts.entry.rows.now (get_or facts.entry.requested.now p 0) 0 }
{
    facts.rows[facts.requested[p as usize] as usize]
}

// ---- the processors in a mask

// The processors of any mask whose entries are in the set.
pub fn those_in(requested: &[u8; MAX_PROCESSORS], set: u64, among: u32) -> u32
    ensures { result ≡ mask_of max_processors (λ p. bit among p && bit set (get_or requested.now p 0)) }
{
    those(among, |p| is_in(set, requested[p as usize]))
}

// The same for known processors.
// Kept: a function beside `those_in`, which tests each entry; settling walks known ones alone and pays for no test.
pub fn known_among(requested: &[u8; MAX_PROCESSORS], set: u64, among: u32) -> u32
    requires { Known requested.now among }
    ensures those { result ≡ mask_of max_processors (λ p. bit among p && bit set (get_or requested.now p 0)) }
    ensures known { Known requested.now result }
{
    those(among, |p| has_entry(requested, set, p))
}

// The set of their entries. A row meets it if the row contains one of them.
fn entries_of(requested: &[u8; MAX_PROCESSORS], among: u32) -> u64
    requires { Known requested.now among }
    ensures { (row : ℕ) → meets row result
        ≡ some max_processors (λ q. bit among q && bit row (get_or requested.now q 0)) }
{
    let mut set: u64 = 0;
    for p in EachPlace(among) {
        set |= 1 << requested[p as usize];
    }
    set
}

// Whether the row contains the entry of one of them. It stops at the first.
// Kept: no `EachPlace`, in this walk alone: with it a call with 16 busy processors took 6 per cent more.
fn in_row(row: u64, requested: &[u8; MAX_PROCESSORS], among: u32) -> bool
    requires { Known requested.now among }
    ensures { result ≡ some max_processors (λ q. bit among q && bit row (get_or requested.now q 0)) }
{
    let mut left = among;
    while left != 0 {
        if has_entry(requested, row, left.trailing_zeros()) {
            return true;
        }
        left &= left - 1;
    }
    false
}

// ---- candidates and others

// The candidates whose requests conflict with none of the others' requests. Without candidates or others it reads no
// row.
pub fn unopposed(facts: LentFacts<'_>, candidates: u32, others: u32) -> u32
    requires { Known facts.requested.now candidates × Known facts.requested.now others }
    ensures those { result ≡ unopposed_in (facts_lent facts.entry) candidates others }
    ensures known { Known facts.entry.requested.now result }
{
    if candidates == 0 {
        return 0;
    }
    if others == 0 {
        return candidates;
    }
    let set = entries_of(facts.requested, others);
    those(candidates, |p| !meet64(row_at(facts, p), set))
}

// Whether an earlier request of the others conflicts with the processor's.
fn is_behind(facts: LentFacts<'_>, others: u32, p: u32) -> bool
    requires { (p < max_processors) × (get_or facts.requested.now p 0 < max_entries)
        × Known facts.requested.now others }
    ensures { result
        ≡ against (facts_lent facts.entry) p (λ q. is_earlier (facts_lent facts.entry) q p && bit others q) }
{
    in_row(
        row_at(facts, p),
        facts.requested,
        facts.earlier[p as usize] & others,
    )
}

// The candidates whose requests conflict with none of the others' earlier requests.
pub fn first_in_queue(facts: LentFacts<'_>, candidates: u32, others: u32) -> u32
    requires { Known facts.requested.now candidates × Known facts.requested.now others }
    ensures { result ≡ first_in_line (facts_lent facts.entry) candidates others }
{
    those(candidates, |p| !is_behind(facts, others, p))
}
