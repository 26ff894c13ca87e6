// Writes a plan value into a lent buffer. `plan_reader` reads the same bytes back. Specification, section 2.
ghost use Rattle.std.specs.Prelude.{◌≡◌, ◌+◌, ◌≤◌, length, take};
ghost use Rattle.std.proofs.lemmas.List.Edits.{sets};
ghost use Rattle.encoding.specs.Buffers.{overwritten, outcome_as_numbers};
ghost use Rattle.plans.specs.Entries.{max_entries, section_size, plan_size};
ghost use Rattle.plans.specs.Writing.{section_bytes, plan_bytes, write_as_numbers, written_buffer};

use crate::entry_writer::write_entry;
use crate::plan_room::check_writing;
use plans::{Entry, MAX_ENTRIES, PLAN_COUNTS_BYTES, Plan, entry_size, plan_size};
use refusals::Refusal;

// Stores the entries from the start of the section.
fn write_section(entries: &[Entry], section: &mut [u8])
    requires { section_size entries.now ≤ length section.old }
    ensures { section.new ≡ sets section.old 0 (section_bytes entries.now) }
{
    let mut at = 0;
    for entry in entries {
        write_entry(*entry, section, at);
        at += entry_size(*entry);
    }
}

// Stores the plan from position `at`, where there is room for it: the counts, then the entries into the rest of the
// buffer.
fn write_plan(plan: Plan, buffer: &mut [u8], at: usize)
    requires { (plan.count ≤ max_entries) × (at + plan_size plan ≤ length buffer.old) }
    ensures { buffer.new ≡ overwritten buffer.old at (plan_bytes plan) }
{
    buffer[at] = plan.processors;
    buffer[at + 1] = plan.resources;
    buffer[at + 2] = plan.count;
    let start = at + PLAN_COUNTS_BYTES;
    write_section(&plan.entries[..plan.count as usize], &mut buffer[start..]);
}

// Clause 2.12: writes the plan's bytes into the buffer from position `at`. Other bytes stay.
// Refuses with 3 to 8 a plan value that the reader would refuse, then with 16. A refusal writes nothing.
pub fn write(plan: Plan, buffer: &mut [u8], at: usize) -> Result<usize, Refusal>
    ensures outcome { outcome_as_numbers result ≡ write_as_numbers plan buffer.old at }
    ensures bytes { buffer.new ≡ written_buffer plan buffer.old at }
{
    let size = plan_size(plan);
    check_writing(plan, size, buffer.len(), at)?;
    write_plan(plan, buffer, at);
    Ok(size)
}
