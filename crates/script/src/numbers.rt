// Numbers and bytes as text: decimal digits, and two hexadecimal digits a byte in upper case.
// The texts: specs/Texts.antt.
ghost use Rattle.std.specs.Prelude.{◌≡◌, ◌<◌, decimal};
ghost use Rattle.script.specs.Lines.{Wrote};
ghost use Rattle.script.specs.Texts.{hex_digit, hex, payload_text};

use crate::line::{Field, Text};
use std::alloc::AllocError;

// A number in decimal digits. Not `to_string`, which would take memory of its own; a call of itself, since digits come out from the last to the first.
fn digits(line: &mut Vec<u8>, n: u64) -> Result<(), AllocError>
    ensures { Wrote line.old (decimal n) result line.new }
{
    let last = [b'0' + (n % 10) as u8];
    if n < 10 {
        return last.write(line);
    }
    digits(line, n / 10)?;
    last.write(line)
}

impl Text for u64 {
    ghost text = { decimal };

    fn write(&self, line: &mut Vec<u8>) -> Result<(), AllocError> {
        digits(line, *self)
    }
}

impl Text for u8 {
    ghost text = { decimal };

    fn write(&self, line: &mut Vec<u8>) -> Result<(), AllocError> {
        digits(line, u64::from(*self))
    }
}

// The hexadecimal digit of a number below 16. Not `char::from_digit`: its letters are small ones, and it answers a char.
fn hex_digit(n: u8) -> u8
    requires { n < 16 }
    ensures { result ≡ hex_digit n }
{
    if n < 10 { b'0' + n } else { b'A' + n - 10 }
}

// Bytes in hexadecimal.
#[derive(Clone, Copy)]
pub(crate) struct Hex<'a>(pub(crate) &'a [u8]);

impl Text for Hex<'_> {
    ghost text = { λ h. hex h.0.now };

    fn write(&self, line: &mut Vec<u8>) -> Result<(), AllocError> {
        for b in self.0 {
            [hex_digit(*b / 16), hex_digit(*b % 16)].write(line)?;
        }
        Ok(())
    }
}

// A payload: how many bytes, and which; a dash if there are none.
#[derive(Clone, Copy)]
pub(crate) struct Payload<'a>(pub(crate) &'a [u8]);

impl Text for Payload<'_> {
    ghost text = { λ p. payload_text p.0.now };

    fn write(&self, line: &mut Vec<u8>) -> Result<(), AllocError> {
        Field("len", self.0.len() as u64).write(line)?;
        if self.0.is_empty() {
            Field("payload", "-").write(line)
        } else {
            Field("payload", Hex(self.0)).write(line)
        }
    }
}
