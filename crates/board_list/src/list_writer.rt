// The list of the whole board in bytes, from the phases of the requests that count and the direct waits of all
// processors. `queries::list_board` uses it. Specification, clauses 7.7 to 7.9.
ghost use Rattle.std.specs.Prelude.{◌≡◌, ◌+◌, ◌≤◌, ◌<◌, length};
ghost use Rattle.std.proofs.lemmas.List.Edits.{sets};
ghost use Rattle.refusals.specs.Due.{as_numbers};
ghost use Rattle.encoding.specs.Buffers.{outcome_as_numbers};
ghost use Rattle.plans.specs.Entries.{max_processors, mask_size_for};
ghost use Rattle.board_list.specs.Sizes.{listed_of, part_size, list_size};
ghost use Rattle.encoding.specs.InTurn.{in_turn};
ghost use Rattle.board_list.specs.Listing.{part_shown, list_fault, list_buffer};

use crate::list_fields::{entry_at, waited_at};
use crate::list_parts::{Part, store_part};
use crate::list_sizes::{PART_FIXED_BYTES, list_size, listed};
use crate::phases::phase_at;
use encoding::check_room;
use plans::{MAX_PROCESSORS, mask_size};
use refusals::Refusal;
use rules::Moment;

// Kept: an array for each column, as a state has them.
// What the list shows of all processors: the phases are those of the requests that count, `waits` has the direct waits
// of each.
#[derive(Clone, Copy)]
pub struct Columns<'a> {
    pub moment: Moment,
    pub requested: &'a [u8; MAX_PROCESSORS],
    pub since: &'a [u64; MAX_PROCESSORS],
    pub waits: &'a [u32; MAX_PROCESSORS],
}

// Stores the part of processor i from position at.
#[tactic(auto, unfolding(crate::specs::Listing::part_in, crate::specs::Fields::entry_shown, crate::specs::Fields::waited_in))]
fn store_part_of(columns: Columns<'_>, size: usize, i: usize, buffer: &mut [u8], at: usize)
    requires { (i < max_processors) × (size ≤ 4) × (at + part_size size ≤ length buffer.old) }
    ensures { buffer.new ≡ sets buffer.old at (part_shown size columns.entry i) }
{
    let phases = columns.moment.phases;
    let p = i as u32;
    let part = Part {
        phase: phase_at(phases, p),
        entry: entry_at(phases, columns.requested[i], p),
        waited: waited_at(phases, columns.moment.last, columns.since[i], p),
        waits: columns.waits[i],
    };
    store_part(size, part, buffer, at);
}

// Stores the parts of the first count processors, from byte 1.
#[tactic(auto, using(crate::proofs::Stores::part_turn, crate::proofs::Parts::length_part), unfolding(encoding::specs::InTurn::in_turn, crate::specs::Listing::part_in))]
fn store_parts(columns: Columns<'_>, size: usize, count: usize, buffer: &mut [u8])
    requires { (size ≤ 4) × (count ≤ max_processors) × (list_size size count ≤ length buffer.old) }
    ensures { buffer.new ≡ sets buffer.old 1 (in_turn count (part_shown size columns.entry)) }
{
    for i in 0..count {
        store_part_of(columns, size, i, buffer, 1 + (PART_FIXED_BYTES + size) * i);
    }
}

// Writes the list from the start of the buffer and returns how many bytes it took. The bytes after it stay. Refuses
// with 16 if the buffer is too short, and then writes nothing.
#[tactic(auto, using(crate::proofs::Stores::list_stores, crate::proofs::Parts::length_part, refusals::proofs::Numbers::number_not_zero), unfolding(crate::specs::Listing::part_in, crate::specs::Listing::list_fault, crate::specs::Listing::list_buffer))]
pub fn write(processors: u8, columns: Columns<'_>, buffer: &mut [u8]) -> Result<usize, Refusal>
    ensures outcome { outcome_as_numbers result ≡ as_numbers
        (list_fault (mask_size_for processors) (listed_of processors) buffer.old)
        (list_size (mask_size_for processors) (listed_of processors)) }
    ensures bytes { buffer.new ≡ list_buffer (mask_size_for processors) (listed_of processors)
        (part_shown (mask_size_for processors) columns.entry) buffer.old }
{
    let size = mask_size(processors);
    let count = listed(processors);
    let needed = list_size(processors);
    check_room(needed, buffer.len(), 0)?;
    buffer[0] = count as u8;
    store_parts(columns, size, count, buffer);
    Ok(needed)
}
