// Reads a plan from bytes. Specification, section 2.
ghost use Rattle.std.specs.Prelude.{◌≡◌, cond, eqb};
ghost use Rattle.refusals.specs.Due.{as_numbers};
ghost use Rattle.plans.specs.Entries.{plan_size};
ghost use Rattle.plans.specs.Reading.{blank_plan, plan_in, read_as_numbers, plan_read, taken_as_numbers, plan_taken};
ghost use Rattle.plan_bytes.specs.inner.Body.{body_fault, CountsThere};

use crate::entry_reader::entry_of;
use crate::plan_head::check_head;
use plan_checks::{check_kind, check_length, check_set};
use plans::{ENTRY_BYTES, Entry, MAX_ENTRIES, PLAN_COUNTS_BYTES, Plan, Read, entry_size};
use refusals::Refusal;

// Fills the places past the count, and the plan that goes with a refusal.
const BLANK: Entry = Entry {
    kind: 0,
    set: 0,
    length: 0,
};

// Clause 2.9: reads the entries after accepted counts. The first fault ends the reading.
// Kept: the loop with its checks inside, each of which leaves it by `break` with the refusal: a named form of this place.
fn read_entries(bytes: &[u8]) -> Result<Read, Refusal>
    requires { CountsThere bytes.now }
    ensures outcome { taken_as_numbers result
        ≡ as_numbers (body_fault bytes.now) (plan_size (plan_in bytes.now)) }
    ensures plan { plan_taken result ≡ cond (eqb (body_fault bytes.now) 0) (plan_in bytes.now) blank_plan }
{
    let count = bytes[2] as usize;
    let mut entries = [BLANK; MAX_ENTRIES];
    let mut at: usize = PLAN_COUNTS_BYTES;
    let mut i: usize = 0;
    let verdict = loop {
        if count <= i {
            break Ok(());
        }
        if bytes.len() - at < ENTRY_BYTES {
            break Err(Refusal::Short);
        }
        let entry = entry_of(&bytes[at..]);
        let kind = check_kind(entry);
        if let Err(refusal) = kind {
            break Err(refusal);
        }
        let set = check_set(entry, bytes[1]);
        if let Err(refusal) = set {
            break Err(refusal);
        }
        let length = check_length(entry);
        if let Err(refusal) = length {
            break Err(refusal);
        }
        entries[i] = entry;
        at += entry_size(entry);
        i += 1;
    };
    verdict?;
    Ok(Read {
        plan: Plan {
            processors: bytes[0],
            resources: bytes[1],
            count: bytes[2],
            entries,
        },
        bytes: at,
    })
}

// Clause 2.8: the plan and the number of bytes that it took, or the refusal. Bytes after the plan are ignored.
pub fn read(bytes: &[u8]) -> Result<Read, Refusal>
    ensures outcome { taken_as_numbers result ≡ read_as_numbers bytes.now }
    ensures plan { plan_taken result ≡ plan_read bytes.now }
{
    check_head(bytes)?;
    read_entries(bytes)
}

// Clause 2.9: the plan of a reading. With a refusal it is the blank plan.
pub fn plan_of(read: Result<Read, Refusal>) -> Plan
    ensures { result ≡ plan_taken read }
{
    match read {
        Ok(read) => read.plan,
        Err(_) => Plan {
            processors: 0,
            resources: 0,
            count: 0,
            entries: [BLANK; MAX_ENTRIES],
        },
    }
}
