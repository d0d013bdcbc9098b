// How many of some boards' tags are good for words, in any scheme.
// The count is defined in specs/Counts.antt.
ghost use Rattle.std.specs.Prelude.{◌≡◌};
ghost use Rattle.schemes.specs.Counts.{good_count};

use super::Scheme;

// A tag, and the board whose it is said to be.
#[derive(Clone, Copy, Debug)]
pub struct Tagged {
    pub board: u8,
    pub tag: u64,
}

// The number of good ones among the tags.
pub fn count_good<S: Scheme>(scheme: &S, words: &[u8], tags: &[Tagged]) -> usize
    ensures { result ≡ good_count (S.good scheme.now) words.now tags.now }
{
    tags.iter()
        .filter(|one| scheme.check(one.board, words, one.tag))
        .count()
}
