// What a call returns to a program in C or Rust, in numbers, and the moment that it leaves in that program's memory.
// Specification, sections 4 and 11.
ghost use Rattle.std.specs.Prelude.{◌≡◌};
ghost use Rattle.rules.specs.Replies.{reply_as_numbers};
ghost use Rattle.c_boards.specs.Parts.{moment_by};
ghost use Rattle.c_calls.specs.Replies.{response, moment_left};

use c_boards::store_moment;
use rules::{Changed, Reply};

// A reply in numbers: the number of the refusal, 0 if the call is accepted; the granted and the entitled mask; late.
// With a refusal the other three are 0.
// Kept: the refusal's number beside the values, as the C interface has it.
#[repr(C)]
#[derive(Clone, Copy)]
pub struct CReply {
    pub refusal: u32,
    pub granted: u32,
    pub entitled: u32,
    pub late: u32,
}

// What a call that was carried out or refused returns.
impl From<Reply> for CReply {
    ghost from_gives = { λ reply told. response told ≡ reply_as_numbers reply };

    fn from(reply: Reply) -> CReply {
        match reply {
            Ok(done) => CReply {
                refusal: 0,
                granted: done.granted,
                entitled: done.entitled,
                late: u32::from(done.late),
            },
            Err(refusal) => CReply {
                refusal: u32::from(u8::from(refusal)),
                granted: 0,
                entitled: 0,
                late: 0,
            },
        }
    }
}

// Clause 11.3: returns the reply to a call in place in numbers, and stores its moment in the caller's memory. A refused
// call writes nothing.
pub fn store_and_reply(changed: Changed, last: &mut u64, phases: &mut [u32; 3]) -> CReply
    ensures told { response result ≡ reply_as_numbers changed.reply }
    ensures moment { moment_by last.new phases.new
        ≡ moment_left changed.reply changed.moment (moment_by last.old phases.old) }
{
    if changed.reply.is_ok() {
        store_moment(changed.moment, last, phases);
    }
    CReply::from(changed.reply)
}
