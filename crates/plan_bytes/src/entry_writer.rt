// Writes an entry of a plan into a lent buffer. `plan_writer` calls it for each entry. Specification, clauses 2.6 and
// 2.12.
ghost use Rattle.std.specs.Prelude.{◌≡◌, length};
ghost use Rattle.encoding.specs.Buffers.{room_fault, buffer_after};
ghost use Rattle.plans.specs.Entries.{entry_size_of};
ghost use Rattle.plans.specs.Writing.{entry_bytes};

use encoding::{has_room, write_number};
use plans::{Entry, entry_size};

// Kept: a section and a place in it are two parameters, here and in `encoding`, since the place moves on.
// Stores an entry's bytes from position `at`: kind, set, length. Other bytes stay. Without room it stores nothing.
pub fn write_entry(entry: Entry, section: &mut [u8], at: usize)
    ensures { section.new
        ≡ buffer_after (room_fault (entry_size_of entry) (length section.old) at) (entry_bytes entry)
        section.old at }
{
    if has_room(entry_size(entry), section.len(), at) {
        section[at] = entry.kind;
        let _ = write_number(entry.set, 8, section, at + 1);
        let _ = write_number(entry.length as u64, 2, section, at + 9);
    }
}
