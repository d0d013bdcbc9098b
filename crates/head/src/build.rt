// Building a head field by field, and its bytes.
// Every value is taken; there is no head with one that its field may not have.
ghost use Rattle.std.specs.Prelude.{true};
ghost use Rattle.grammar.specs.Grammar.{from_to};
ghost use Rattle.head.specs.Heads.{BytesOf, Joined, Raised};

use crate::number::Head;
use wire::field::Field;

impl Head {
    // A head with no field.
    pub const EMPTY: Head = Head {
        number: 0,
        width: 0,
    };

    // One more field of at most 8 bits; none if it is too narrow for the value, or there is no room for it.
    pub fn field(self, width: u8, value: usize) -> Option<Head>
        ensures { Joined self width value true result }
    {
        if width > 8 || self.width > 32 - width || value >= 1usize << width {
            return None;
        }
        Some(Head {
            number: (self.number << width) + value as u32,
            width: self.width + width,
        })
    }

    // One more field of the format's table.
    pub fn of(self, field: Field, value: usize) -> Option<Head>
        ensures { Joined self field.width value (from_to field.least field.most value) result }
    {
        self.with(
            field.width,
            value,
            usize::from(field.least),
            usize::from(field.most),
        )
    }

    // One more field, whose value may be `least` to `most`, of any width: a `Field` is for 8 bits and bytes.
    // Two numbers and no range: the library's also says whether it was gone through, which the contract would have to speak of.
    pub fn with(self, width: u8, value: usize, least: usize, most: usize) -> Option<Head>
        ensures { Joined self width value (from_to least most value) result }
    {
        if least <= value && value <= most {
            self.field(width, value)
        } else {
            None
        }
    }

    // The fields in four bytes, and zeros after them.
    pub fn bytes(self) -> [u8; 4]
        ensures { BytesOf self result }
    {
        self.raised().to_be_bytes()
    }

    // The number with its first field on top of 32 bits.
    fn raised(self) -> u32
        ensures { Raised self result }
    {
        if self.width == 0 {
            0
        } else {
            self.number << (32 - self.width)
        }
    }
}
