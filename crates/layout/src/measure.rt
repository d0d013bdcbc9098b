// Whether tags are what the format wants beside a set: eight bytes for each of its boards.
// Where they lie, heard, stored or fresh, makes no difference to the bytes: specs of crate wire, Messages.antt.
ghost use Rattle.std.specs.Prelude.{◌≡◌, length};
ghost use Rattle.layout.specs.Measures.{Bytes, Measured};

use wire::message::{Tagged, Tags};

// How many bytes there are. Tried without: of a slice that is a parameter the proof knows that they are bytes, of one in a variant it does not.
pub(crate) fn count(bytes: &[u8]) -> usize
    ensures { (result ≡ length bytes.now) × Bytes bytes.now }
{
    bytes.len()
}

// Whether the tags are eight bytes for each board of their set.
pub(crate) fn fits(by: Tagged<'_>) -> bool
    ensures { Measured by.entry result }
{
    match by.tags {
        Tags::Heard(bytes) => count(bytes) == 8 * usize::from(by.set.len()),
        Tags::Stored(_) => true,
        Tags::Fresh(_) => by.set.len() == 1,
    }
}
