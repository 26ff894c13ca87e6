// What a viewer in C calls: the functions are given the bytes of a plan and return a number. `viewer_c` exports them,
// and include/bittmelon.h declares them. The figures of a refused plan are 0, and those of an accepted one can be 0
// too: ask for the refusal number first.
#![tactic(auto)]

ghost use Rattle.std.specs.Prelude.{◌≡◌};
ghost use Rattle.viewer.specs.Viewer.{plan_refusal, plan_read_figure, plan_write_figure};

use figures::figures_of;
use plans::Figures;

// What is told of a refused plan.
const NO_FIGURES: Figures = Figures {
    longest_read: 0,
    longest_write: 0,
    read: 0,
    write: 0,
};

// The figures of the plan in the bytes, or 0 for each if the plan is refused.
fn figures_in(bytes: &[u8]) -> Figures
    ensures read { result.read ≡ plan_read_figure bytes.now }
    ensures write { result.write ≡ plan_write_figure bytes.now }
{
    match plan_bytes::read(bytes) {
        Ok(read) => figures_of(read.plan),
        Err(_) => NO_FIGURES,
    }
}

// The refusal number of the plan in the bytes, or 0 if it is accepted.
pub fn bittmelon_plan_refusal(bytes: &[u8]) -> u32
    ensures { result ≡ plan_refusal bytes.now }
{
    match plan_bytes::read(bytes) {
        Ok(_) => 0,
        Err(refusal) => u8::from(refusal) as u32,
    }
}

// The longest that a read waits, in ticks.
pub fn bittmelon_read_figure(bytes: &[u8]) -> u32
    ensures { result ≡ plan_read_figure bytes.now }
{
    figures_in(bytes).read
}

// The longest that a write waits, in ticks.
pub fn bittmelon_write_figure(bytes: &[u8]) -> u32
    ensures { result ≡ plan_write_figure bytes.now }
{
    figures_in(bytes).write
}
