// Reading hexadecimal: digits in either case, two a byte, the higher first.
// Reading undoes writing: specs/Hex.antt.
ghost use Rattle.std.specs.Prelude.{◌≡◌, ◌<◌};
ghost use Rattle.script.specs.Lines.{Adds};
ghost use Rattle.script.specs.Hex.{nibble, read_hex, Undone};

use crate::line::Text;
use std::alloc::AllocError;

// The number that a digit stands for; 0 for what is none.
fn nibble(digit: u8) -> u8
    ensures { (result ≡ nibble digit) × (result < 16) }
{
    char::from(digit).to_digit(16).unwrap_or(0) as u8
}

// Adds the bytes that hexadecimal digits stand for, two digits each; of an odd number of digits the last is left out.
pub fn unhex(mut out: Vec<u8>, digits: &[u8]) -> Result<Vec<u8>, AllocError>
    ensures { Adds out (read_hex digits.now) result }
{
    for pair in digits.chunks_exact(2) {
        [16 * nibble(pair[0]) + nibble(pair[1])].write(&mut out)?;
    }
    Ok(out)
}

// Reading hexadecimal undoes writing it, and what is written is digits, two a byte.
pub fn reading_undoes_writing()
    ensures { Undone }
{}
