// The keyed scheme: a tag is the SipHash-2-4 of the words under the board's key.
// The keys stay where the caller keeps them.
ghost use Rattle.std.specs.Prelude.{◌≡◌};
ghost use Rattle.schemes.specs.Keys.{good_under, never_spent, Keying};
ghost use Rattle.schemes.specs.Meaning.{Signing};
ghost use Rattle.schemes.specs.Bounds.{keyed_bounded};

use super::{Scheme, SignRefusal, admit, is_signable};
use siphash::siphash;

// A key for each board.
pub type Keys = [[u8; 16]; 8];

// The keys, lent by the caller.
#[derive(Drop)]
pub struct Keyed<'a> {
    keys: &'a Keys,
}

impl<'a> Keyed<'a> {
    // The scheme of these keys, one for each board.
    pub fn new(keys: &'a Keys) -> Keyed<'a>
        ensures { result.keys.now ≡ keys.now }
    {
        Keyed { keys }
    }
}

impl Scheme for Keyed<'_> {
    ghost good = { good_under };

    ghost spent = { never_spent };

    ghost bounded = { keyed_bounded };

    fn check(&self, board: u8, words: &[u8], tag: u64) -> bool {
        is_signable(board, words) && tag == siphash(&self.keys[usize::from(board)], words)
    }

    fn is_spent(&self) -> bool {
        false
    }

    fn sign(&mut self, board: u8, words: &[u8]) -> Result<u64, SignRefusal>
        ensures meaning { Signing good_under never_spent self.old self.new board words.now result }
        ensures tag { Keying self.old self.new board words.now result }
    {
        admit(board, words, self.is_spent())?;
        Ok(siphash(&self.keys[usize::from(board)], words))
    }
}
