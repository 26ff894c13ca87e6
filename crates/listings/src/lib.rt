// The lines of a listing as bytes in a lent buffer: the first line of a plan, the line of a call and its reply, and the
// line of a refusal. `replay`, `lockreplay` and `query_listing` use it. Specification, section 9.
// Kept: a buffer and a place stay two parameters, since the place moves on from line to line and the buffer does not.
#![tactic(auto)]

mod call_lines;
mod done_lines;
mod first_lines;
mod lines;

ghost use Rattle.std.specs.Prelude.{◌≡◌, length};
ghost use Rattle.encoding.specs.Buffers.{outcome_as_numbers};
ghost use Rattle.listings.specs.PlainLines.{line_as_numbers, line_buffer};
ghost use Rattle.listings.specs.Lines.{first_line};

pub use call_lines::call_line_by;
use figures::figures_of;
use first_lines::{FirstNumbers, numbers_line};
pub use line_fields::MaskFormat;
pub use lines::{line_size, refusal_line};
use plans::Plan;
use refusals::Refusal;

// Clause 9.6: the first line, for any plan value.
pub fn first_line(plan: Plan, buffer: &mut [u8], at: usize) -> Result<usize, Refusal>
    ensures outcome { outcome_as_numbers result ≡ line_as_numbers (first_line plan) (length buffer.old) at }
    ensures bytes { buffer.new ≡ line_buffer (first_line plan) buffer.old at }
{
    let figures = figures_of(plan);
    let numbers = FirstNumbers {
        processors: plan.processors,
        resources: plan.resources,
        count: plan.count,
        read: figures.read,
        write: figures.write,
    };
    numbers_line(numbers, buffer, at)
}
