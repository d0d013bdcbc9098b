// What a reader meets bit by bit: the fields of heads and entries.
// Each step says what the format says of the bits left, whatever comes after.
ghost use Rattle.std.specs.Prelude.{◌≡◌, ◌+◌, ◌*◌, ◌≤◌, length};
ghost use Rattle.grammar.specs.declared.fault.Layer.TheVariants.{Bytes as BytesLayer, Field as FieldLayer};
ghost use Rattle.grammar.specs.Grammar.{fault};
ghost use Rattle.reader.specs.Places.{at, Begun, Moved, NumberAt, ValueRead};

use crate::place::Reader;
use grammar::fault::{Fault, Layer};
use wire::field::Field;

impl<'a> Reader<'a> {
    pub(crate) fn new(src: &'a [u8]) -> Reader<'a>
        ensures { Begun src.now result }
    {
        Reader {
            src,
            byte: 0,
            bit: 0,
        }
    }

    // Bits or bytes are missing.
    pub(crate) fn missing(&self) -> Fault
        ensures { result ≡ fault BytesLayer (length self.now.src.now) }
    {
        Fault {
            layer: Layer::Bytes,
            place: self.src.len(),
        }
    }

    // What stands here is not allowed.
    pub(crate) fn refused(&self) -> Fault
        ensures { result ≡ fault FieldLayer self.now.byte }
    {
        Fault {
            layer: Layer::Field,
            place: self.byte,
        }
    }

    // The number in a field's bits, whether or not it is allowed.
    pub(crate) fn number(&self, field: Field) -> Result<u8, Fault>
        ensures { NumberAt self.now field.width result }
    {
        let end = self.bit + field.width;
        let (high, low) = match &self.src[self.byte..] {
            [high, low, ..] => (*high, *low),
            [high] if end <= 8 => (*high, 0),
            _ => return Err(self.missing()),
        };
        let pair = u16::from_be_bytes([high, low]);
        Ok(((pair >> (16 - end)) & ((1 << field.width) - 1)) as u8)
    }

    // The place moves past a field whose bits are there.
    pub(crate) fn skip(&mut self, field: Field)
        requires { at self.old + field.width ≤ 8 * length self.old.src.now }
        ensures { Moved self.old field.width self.new }
    {
        let end = self.bit + field.width;
        self.byte += usize::from(end / 8);
        self.bit = end % 8;
    }

    // A field's value, if it is allowed.
    pub(crate) fn value(&mut self, field: Field) -> Result<u8, Fault>
        ensures { ValueRead field.width field.least field.most self.old result self.new }
    {
        let v = self.number(field)?;
        if !field.allows(v) {
            return Err(self.refused());
        }
        self.skip(field);
        Ok(v)
    }
}
