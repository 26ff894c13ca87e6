// What a program in C or Rust gets back when it reads a plan or makes a query, in numbers. Specification, section 11,
// clauses 11.2 and 11.4.
ghost use Rattle.std.specs.Prelude.{◌≡◌};
ghost use Rattle.encoding.specs.Buffers.{outcome_as_numbers};
ghost use Rattle.c_boards.specs.Answers.{c_answer_as_numbers};

use refusals::Refusal;

// An answer in numbers: the number of the refusal, 0 if there is none, and a value, which is 0 with a refusal.
// Kept: the refusal's number beside the value, as the C interface has it.
#[repr(C)]
#[derive(Clone, Copy)]
pub struct CAnswer {
    pub refusal: u32,
    pub value: u64,
}

// A count of bytes, a mask of processors or the number of a state, or the refusal.
impl From<Result<u64, Refusal>> for CAnswer {
    ghost from_gives = { λ answer told. c_answer_as_numbers told ≡ outcome_as_numbers answer };

    fn from(answer: Result<u64, Refusal>) -> CAnswer {
        match answer {
            Ok(value) => CAnswer { refusal: 0, value },
            Err(refusal) => CAnswer {
                refusal: u32::from(u8::from(refusal)),
                value: 0,
            },
        }
    }
}
