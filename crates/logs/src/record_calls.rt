// The call that the fields of a record give. `read_record` reads the fields. Specification, section 9.
ghost use Rattle.std.specs.Prelude.{◌≡◌};
ghost use Rattle.logs.specs.Verbs.{record_as_numbers, recorded};

use refusals::Refusal;
use rules::Call;

// Clause 9.3: the call of a verb. Refuses with 9.
// Kept: four fields and no `TryFrom`, since a record's bytes have a definition of their own that the promise cites.
pub fn call_by(verb: u8, processor: u8, entry: u8, tick: u64) -> Result<Call, Refusal>
    ensures { record_as_numbers result
        ≡ recorded (record { verb = verb; processor = processor; entry = entry; tick = tick }) }
{
    match (verb, entry) {
        (0, _) => Ok(Call::Issue {
            processor,
            entry,
            tick,
        }),
        (1, 0) => Ok(Call::Complete { processor, tick }),
        (2, 0) => Ok(Call::Withdraw { processor, tick }),
        (3, _) => Ok(Call::Handover {
            processor,
            entry,
            tick,
        }),
        _ => Err(Refusal::Verb),
    }
}
