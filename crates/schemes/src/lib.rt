// Signature schemes: what a scheme means, and what every implementation of one must show.
// The meaning is in specs/Meaning.antt; `register` keeps what was signed, `keyed` computes tags from keys.
#![tactic(auto)]

ghost use Rattle.std.specs.Prelude.{◌≡◌, ℕ, Bool, List};
ghost use Rattle.schemes.specs.Meaning.{Signing, Bounded, Admits, signable, number};

pub mod counts;
pub mod keyed;
pub mod laws;
pub mod register;

// Why a scheme does not sign.
// Its numbers are those of the table in crate `codes`, and said here too: codes carry the faults of messages, of which a scheme knows nothing,
// so this crate stands without that one.
#[derive(Clone, Copy, Debug, PartialEq, Eq)]
pub enum SignRefusal {
    Board = 1,
    Long = 4,
    Spent = 17,
}

// The number by which a refusal is known.
impl From<SignRefusal> for u8 {
    ghost from_gives = { λ r n. n ≡ number r };

    fn from(refusal: SignRefusal) -> u8 {
        refusal as u8
    }
}

// A scheme is what its `good` and `spent` say; whoever uses one rests on this contract alone.
// Board and words stay two parameters, for a scheme is a relation over them: each law speaks of each by itself, and would take a struct apart.
pub trait Scheme {
    ghost good: { Self → ℕ → List ℕ → ℕ → Bool };

    ghost spent: { Self → Bool };

    // Whether the tag is good for the board and the words.
    fn check(&self, board: u8, words: &[u8], tag: u64) -> bool
        ensures { result ≡ good self.now board words.now tag };

    // Whether the scheme is spent.
    fn is_spent(&self) -> bool
        ensures { result ≡ spent self.now };

    // A tag that is good for the board and the words from now on, or a refusal that changes nothing.
    fn sign(&mut self, board: u8, words: &[u8]) -> Result<u64, SignRefusal>
        ensures { Signing good spent self.old self.new board words.now result };

    // Only a board 0 to 7 and words of 1 to 64 bytes ever have a good tag.
    ghost bounded: { Bounded good };
}

// Whether a board and words can be signed at all.
fn is_signable(board: u8, words: &[u8]) -> bool
    ensures { result ≡ signable board words.now }
{
    admit(board, words, false).is_ok()
}

// Refuses for the first reason that holds.
fn admit(board: u8, words: &[u8], spent: bool) -> Result<(), SignRefusal>
    ensures { Admits board words.now spent result }
{
    if board >= 8 {
        return Err(SignRefusal::Board);
    }
    if !(1..=64).contains(&words.len()) {
        return Err(SignRefusal::Long);
    }
    if spent {
        return Err(SignRefusal::Spent);
    }
    Ok(())
}
