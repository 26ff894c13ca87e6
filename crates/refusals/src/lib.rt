// Why a plan, a log record, a query, a call or a register access is refused: a variant and a number for each word of
// clause 8.1. What is checked or answered is a `Result` whose error is a refusal, so `?` gives the first refusal that is
// due. Every crate that refuses something uses it.
#![tactic(auto)]

ghost use Rattle.std.specs.Prelude.{◌≡◌};
ghost use Rattle.refusals.specs.Number.{number_of, verdict_number};
ghost use Rattle.refusals.specs.Due.{due};

#[derive(Clone, Copy, Debug, PartialEq, Eq)]
pub enum Refusal {
    // The bytes end before a count, an entry or a call that is due.
    Short = 1,
    // There are bytes after the last call of a log.
    Tail = 2,
    // A count of processors that is not 1 to 32.
    Processors = 3,
    // A count of resources that is not 1 to 64.
    Resources = 4,
    // A count of entries that is not 1 to 64.
    Entries = 5,
    // A kind that is neither 0 nor 1.
    Kind = 6,
    // An entry without names, or with one that is not counted.
    Set = 7,
    // A length of 0.
    Length = 8,
    // A verb above 3, or a completion or a withdrawal with an entry.
    Verb = 9,
    // A tick below the last accepted one, or above the largest.
    Tick = 10,
    // A processor that is not one of the plan's.
    Processor = 11,
    // An entry that is not one of the plan's.
    Entry = 12,
    // An issue while the processor's request is active.
    Busy = 13,
    // A completion, a withdrawal or a handover with no active request.
    Idle = 14,
    // A completion or a handover while the request is unsatisfied.
    Unheld = 15,
    // Too few bytes from the position on, a position past the end, or a scratch or a buffer for a list that is too
    // short.
    Room = 16,
    // A withdrawal of a request that holds.
    Held = 17,
    // An offset that is not listed, one that may not be written, or a command above 4.
    Register = 18,
}

// Clause 8.1: the number of a refusal.
impl From<Refusal> for u8 {
    ghost from_gives = { λ refusal number. number ≡ number_of refusal };

    fn from(refusal: Refusal) -> u8 {
        refusal as u8
    }
}

// Refuses unless the test holds.
pub fn refuse_unless(holds: bool, refusal: Refusal) -> Result<(), Refusal>
    ensures { verdict_number result ≡ due holds (number_of refusal) }
{
    if holds { Ok(()) } else { Err(refusal) }
}
