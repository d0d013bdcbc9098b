// The register: a row for each signature, in memory that the caller lends.
// A tag is the number of its row; specs/Registers.antt says what the rows mean.
ghost use Rattle.std.specs.Prelude.{◌≡◌, ℕ, ◌<◌, ◌≤◌, true, false, List, length, ◌==◌};
ghost use Rattle.schemes.specs.Bounds.{register_bounded};
ghost use Rattle.schemes.specs.Meaning.{Signing};
ghost use Rattle.schemes.specs.Registers.{blank_entry, holds, good_in, spent_in, Entering};

use super::{Scheme, SignRefusal, admit, is_signable};
use bounded::Bytes;

// What a row holds: a board and the words signed for it.
#[derive(Clone, Copy, Debug)]
pub struct Entry {
    board: u8,
    words: Bytes<64>,
}

impl Entry {
    // An entry for memory that is yet to be lent.
    pub fn blank() -> Entry
        ensures { result ≡ blank_entry }
    {
        Entry {
            board: 0,
            words: Bytes::empty(),
        }
    }

    // The entry of a board and words.
    fn of(board: u8, words: &[u8]) -> Entry
        requires { length words.now ≤ 64 }
        ensures { holds result board words.now ≡ true }
    {
        Entry {
            board,
            words: Bytes::of(words).unwrap(),
        }
    }

    // Whether the entry is that of the board and the words.
    // No equality is derived: bytes past the words must not count, and an entry made to be compared would copy the words.
    fn is_of(&self, board: u8, words: &[u8]) -> bool
        ensures { result ≡ holds self.now board words.now }
    {
        self.board == board && self.words.as_slice() == words
    }
}

// Rows lent by the caller, the first `used` of them in use.
#[derive(Drop)]
pub struct Register<'a> {
    rows: &'a mut [Entry],
    used: usize,
}

impl<'a> Register<'a> {
    // An empty register over any memory.
    pub fn new(rows: &'a mut [Entry]) -> Register<'a>
        ensures rows { result.rows.now ≡ rows.old }
        ensures none { result.used ≡ 0 }
        ensures empty { (b : ℕ) (w : List ℕ) (t : ℕ) → good_in result b w t ≡ false }
        ensures spent { spent_in result ≡ (length rows.old == 0) }
    {
        Register { rows, used: 0 }
    }
}

impl Scheme for Register<'_> {
    ghost good = { good_in };

    ghost spent = { spent_in };

    ghost bounded = { register_bounded };

    fn check(&self, board: u8, words: &[u8], tag: u64) -> bool {
        // A usize has 64 bits, so `try_from` would only add an arm that cannot be reached.
        let at = tag as usize;
        is_signable(board, words)
            && at < self.used
            && self.rows.get(at).is_some_and(|row| row.is_of(board, words))
    }

    fn is_spent(&self) -> bool {
        self.rows.len() <= self.used
    }

    // Uses the lowest unused row; what the new row means for the scheme: proofs/Rows.antt.
    fn sign(&mut self, board: u8, words: &[u8]) -> Result<u64, SignRefusal>
        ensures meaning { Signing good_in spent_in self.old self.new board words.now result }
        ensures row { Entering self.old self.new board words.now result }
    {
        admit(board, words, self.is_spent())?;
        let at = self.used;
        self.rows[at] = Entry::of(board, words);
        self.used = at + 1;
        // As in `check`: from a usize there is no `from`.
        Ok(at as u64)
    }
}
