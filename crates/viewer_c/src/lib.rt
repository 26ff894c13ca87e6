// Exported to C and Rust: the functions of `viewer`, under the same names and with the same clauses.
// include/bittmelon.h declares what is exported.
// Kept: functions that only pass on, as the C interface exports them from a crate of its own.
#![tactic(auto)]

ghost use Rattle.std.specs.Prelude.{◌≡◌};
ghost use Rattle.viewer.specs.Viewer.{plan_refusal, plan_read_figure, plan_write_figure};

// The refusal number of the plan in the bytes, or 0 if it is accepted.
#[unsafe(no_mangle)]
pub extern "C" fn bittmelon_plan_refusal(bytes: &[u8]) -> u32
    ensures { result ≡ plan_refusal bytes.now }
{
    viewer::bittmelon_plan_refusal(bytes)
}

// The longest that a read waits, in ticks.
#[unsafe(no_mangle)]
pub extern "C" fn bittmelon_read_figure(bytes: &[u8]) -> u32
    ensures { result ≡ plan_read_figure bytes.now }
{
    viewer::bittmelon_read_figure(bytes)
}

// The longest that a write waits, in ticks.
#[unsafe(no_mangle)]
pub extern "C" fn bittmelon_write_figure(bytes: &[u8]) -> u32
    ensures { result ≡ plan_write_figure bytes.now }
{
    viewer::bittmelon_write_figure(bytes)
}
