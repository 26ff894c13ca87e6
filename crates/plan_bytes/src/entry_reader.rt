// Reads an entry of a plan from its bytes. `plan_reader` calls it for each entry. Specification, clause 2.6.
ghost use Rattle.std.specs.Prelude.{◌≡◌, ◌≤◌, length};
ghost use Rattle.plans.specs.Entries.{entry_size};
ghost use Rattle.plans.specs.Reading.{entry_in};

use encoding::read_number;
use plans::{ENTRY_BYTES, Entry};

// Clause 2.6: the entry in 11 bytes.
pub fn entry_of(bytes: &[u8]) -> Entry
    requires { entry_size ≤ length bytes.now }
    ensures { result ≡ entry_in bytes.now }
{
    let set = read_number(&bytes[1..9]);
    let length = read_number(&bytes[9..ENTRY_BYTES]);
    Entry {
        kind: bytes[0],
        set: set,
        length: length as u16,
    }
}
