// What the test probes share: their input as it arrives, and how they show bytes, in hexadecimal digits, and refusals.
#![tactic(auto)]

mod inputs;

ghost use Rattle.std.specs.Prelude.{Some};
ghost use Rattle.probe_io.specs.Texts.{hex_of, refused};

pub use inputs::Input;
use refusals::Refusal;
use std::fmt;

// Bytes, shown as two hexadecimal digits each.
#[derive(Clone, Copy)]
pub struct Hex<'a>(pub &'a [u8]);

impl fmt::Display for Hex<'_> {
    ghost output = { λ shown. Some (hex_of shown.0.now) };

    fn fmt<W: fmt::Write>(&self, f: &mut fmt::Formatter<W>) -> fmt::Result {
        for &byte in self.0 {
            write!(f, "{byte:02x}")?;
        }
        Ok(())
    }
}

// A refusal, shown by its number.
#[derive(Clone, Copy)]
pub struct Refused(pub Refusal);

impl fmt::Display for Refused {
    ghost output = { λ shown. Some (refused shown.0) };

    fn fmt<W: fmt::Write>(&self, f: &mut fmt::Formatter<W>) -> fmt::Result {
        let number = u8::from(self.0);
        write!(f, "refused {number}")
    }
}
