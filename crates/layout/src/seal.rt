// How messages end: a set and the tags of its boards.
// Three rules for the set: any, just the speaker, or a proof that goes with the highest earlier rank.
ghost use Rattle.std.specs.Prelude.{◌≡◌, if◌then◌else◌, nat_eq};
ghost use Rattle.grammar.specs.Grammar.{from_to};
ghost use Rattle.layout.specs.Layouts.{Alone, Own, Proven, Sealed};

use crate::measure::fits;
use crate::plan::{Front, Layout};
use boards::Set;
use wire::message::{Spoken, Tagged};

// Just the speaker, and its tag; none if there is no such board.
pub(crate) fn lone<'a>(own: Spoken<'a>) -> Option<Tagged<'a>>
    ensures { Own own.entry.speaker own.entry.tag result }
{
    if own.speaker >= 8 {
        return None;
    }
    Some(own.tagged())
}

impl<'a> Front<'a> {
    // Any set.
    pub(crate) fn sealed(self, by: Tagged<'a>) -> Option<Layout<'a>>
        ensures { Sealed self.entry by.entry result }
    {
        fits(by).then_some(Layout { front: self, by })
    }

    // Just the speaker.
    pub(crate) fn alone(self, own: Spoken<'a>) -> Option<Layout<'a>>
        ensures { Alone self.entry own.entry.speaker own.entry.tag result }
    {
        self.sealed(lone(own)?)
    }

    // A proof, which has boards exactly if there is an earlier rank.
    pub(crate) fn proven(self, top: u8, proof: Tagged<'a>) -> Option<Layout<'a>>
        ensures { Proven self.entry top proof.entry result }
    {
        if !called_for(top, proof.set) {
            return None;
        }
        self.sealed(proof)
    }
}

// Whether a proof has boards as the highest earlier rank wants.
fn called_for(top: u8, proof: Set) -> bool
    ensures { result ≡ from_to (if nat_eq top 0 then 0 else 1) (if nat_eq top 0 then 0 else 255) proof.bits }
{
    proof.is_empty() == (top == 0)
}
