// The parts of a message in the order in which they are written.
// What bytes a layout has: specs/Layouts.antt.
ghost use Rattle.layout.specs.Measures.{Even};

use head::number::Head;
use wire::message::{Replies, Tagged};

// Replies that may stand before a proof, with their highest earlier rank, 0 for none.
#[derive(Clone, Copy)]
pub struct Gathered<'a> {
    pub replies: Replies<'a>,
    // No `Option`: entries have 0 as their own word for none, the format's rule for a proof speaks of it, and a maximum over them needs no case.
    pub top: u8,
    ghost even: { Even replies.set.bits replies.entries },
}

// What stands between the head and the last set: a payload, the tag of a last, or the entries of a suggest-last.
// `Nothing` is one more case and no `Option` around three: it has bytes as they have, none.
#[derive(Clone, Copy)]
pub enum Middle<'a> {
    Nothing,
    Payload(&'a [u8]),
    Tag(Tagged<'a>),
    Replies(Gathered<'a>),
}

// All before the last set.
#[derive(Clone, Copy)]
pub struct Front<'a> {
    pub head: Head,
    pub middle: Middle<'a>,
}

// That the head is whole bytes is no ghost field: `sealed` cannot know it of just any front, and a function that makes one would have to ask it of its head.
#[derive(Clone, Copy)]
pub struct Layout<'a> {
    pub front: Front<'a>,
    pub by: Tagged<'a>,
}
