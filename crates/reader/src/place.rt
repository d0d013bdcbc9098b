// Readers over heard bytes: the bytes, and the place of the next bit as byte and bit. The place never leaves the bytes.
// How much is known of the place is the reader's type: any bit, between the halves of a byte, or between two bytes.
ghost use Rattle.std.specs.Prelude.{◌≡◌, ℕ, ◌<◌, ◌≤◌, length, slice_index};

use grammar::fault::Fault;

#[derive(Clone, Copy)]
pub struct Reader<'a> {
    pub src: &'a [u8],
    pub byte: usize,
    pub bit: u8,
    ghost inside: { byte ≤ length src.now },
    ghost small: { bit < 8 },
    ghost fit: { (i : ℕ) → slice_index src.now i < 256 },
}

// At one bit of a byte, which the type names.
#[derive(Clone, Copy)]
pub struct At<'a, const BIT: u8> {
    pub reader: Reader<'a>,
    ghost at: { reader.bit ≡ BIT },
}

// Between the halves of a byte, as kind and view leave it.
pub type Half<'a> = At<'a, 4>;

// Between two bytes, as every head leaves it.
pub type Whole<'a> = At<'a, 0>;

// What was read, and where the rest begins; or why it could not be.
pub(crate) type Reading<'a, T> = Result<(T, Whole<'a>), Fault>;
