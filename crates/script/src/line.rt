// What stands on a line of text: each value says which bytes it is there, and adds them at the line's end.
// `Display` would be the library's word for this, but says nothing of an Err; here an Err is want of memory and nothing else.
ghost use Rattle.std.specs.Prelude.{ℕ, List, ◌++◌};
ghost use Rattle.script.specs.Lines.{Wrote, option_text};
ghost use Rattle.script.specs.Texts.{field};

use std::alloc::AllocError;

pub(crate) trait Text {
    ghost text: { Self → List ℕ };

    fn write(&self, line: &mut Vec<u8>) -> Result<(), AllocError>
        ensures { Wrote line.old (text self.now) result line.new };
}

impl Text for &str {
    ghost text = { λ s. s.now };

    fn write(&self, line: &mut Vec<u8>) -> Result<(), AllocError> {
        line.extend_from_slice(self.as_bytes())
    }
}

// Bytes as they are.
impl<const N: usize> Text for [u8; N] {
    ghost text = { λ bs. bs };

    fn write(&self, line: &mut Vec<u8>) -> Result<(), AllocError> {
        line.extend_from_slice(self)
    }
}

// One after the other.
impl<A: Text, B: Text> Text for (A, B) {
    ghost text = { λ p. A.text p.0 ++ B.text p.1 };

    fn write(&self, line: &mut Vec<u8>) -> Result<(), AllocError> {
        self.0.write(line)?;
        self.1.write(line)
    }
}

impl<T: Text> Text for Option<T> {
    ghost text = { option_text T.text };

    fn write(&self, line: &mut Vec<u8>) -> Result<(), AllocError> {
        match self {
            Some(value) => value.write(line),
            None => Ok(()),
        }
    }
}

// A field: a space, its name, an equals sign, its value.
#[derive(Clone, Copy)]
pub(crate) struct Field<'a, T>(pub(crate) &'a str, pub(crate) T);

impl<T: Text> Text for Field<'_, T> {
    ghost text = { λ f. field f.0.now (T.text f.1) };

    #[tactic(auto, unfolding(crate::specs::Texts::field))]
    fn write(&self, line: &mut Vec<u8>) -> Result<(), AllocError> {
        (" ", (self.0, "=")).write(line)?;
        self.1.write(line)
    }
}
