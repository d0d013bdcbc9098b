// A message of the backplane: thirteen kinds, whose payload and tags are lent, of the bytes they were read from or of a row.
// Rules: docs/FRAMES.md, "Kinds". What a value means, apart from where its bytes lie, is `meaning` in specs/Messages.antt.
ghost use Rattle.std.specs.Prelude.{◌≡◌, Some};
ghost use Rattle.boards.specs.Boards.{only};
ghost use Rattle.wire.specs.Acts.{undercuts};
ghost use Rattle.wire.specs.Kinds.{kind_number};
ghost use Rattle.wire.specs.Messages.{entry_byte, entry_in, kind, meaning, sort_name, SortNumbered};

use crate::kind::{Kind, Unknown};
use boards::Set;
use std::fmt;

// What a payload is: a report, or the end that closes a view for its sender.
#[derive(Clone, Copy, Debug, PartialEq, Eq)]
pub enum Sort {
    Report = 0,
    End = 1,
}

impl TryFrom<u8> for Sort {
    type Error = Unknown;

    ghost try_from_gives = { SortNumbered };

    fn try_from(number: u8) -> Result<Sort, Unknown> {
        match number {
            0 => Ok(Sort::Report),
            1 => Ok(Sort::End),
            _ => Err(Unknown(number)),
        }
    }
}

impl Sort {
    // Its name, for whoever writes it without a formatter.
    pub fn name(self) -> &'static str
        ensures { result.now ≡ sort_name self }
    {
        match self {
            Sort::Report => "report",
            Sort::End => "end",
        }
    }
}

impl fmt::Display for Sort {
    ghost output = { λ s. Some (sort_name s) };

    fn fmt<W: fmt::Write>(&self, f: &mut fmt::Formatter<W>) -> fmt::Result {
        f.write_str(self.name())
    }
}

// A board's answer to a query: the rank of the proposal it keeps and that proposal's change; rank 0 for none.
// Not an `Option` of both: an entry that was heard is any byte, and rank 0 with a change, which the format refuses, is one that must be sayable.
#[derive(Clone, Copy, Debug, PartialEq, Eq)]
pub struct Entry {
    pub earlier: u8,
    pub change: u8,
}

impl Entry {
    // No proposal kept. A constant, which a `Default` is not.
    pub const NONE: Entry = Entry {
        earlier: 0,
        change: 0,
    };

    // Whether its earlier rank is lower than that of another, where rank 0 is none and not the lowest.
    pub fn undercuts(self, other: Entry) -> bool
        ensures { result ≡ undercuts self other }
    {
        self.earlier != 0 && (other.earlier == 0 || self.earlier < other.earlier)
    }
}

// An entry is one byte: the earlier rank on top, the change in the lowest three bits.
impl From<u8> for Entry {
    ghost from_gives = { λ b e. e ≡ entry_in b };

    fn from(b: u8) -> Entry {
        Entry {
            earlier: b / 16,
            change: b % 8,
        }
    }
}

// The byte of an entry, with a 0 bit between rank and change.
impl From<Entry> for u8 {
    ghost from_gives = { λ e b. b ≡ entry_byte e };

    fn from(e: Entry) -> u8 {
        e.earlier % 16 * 16 + e.change % 8
    }
}

// The tags of a set's boards, by rising board number: as heard, eight bytes each; as a row stores them, by board number;
// or one alone as a number, as it was just signed.
#[derive(Clone, Copy)]
pub enum Tags<'a> {
    Heard(&'a [u8]),
    Stored(&'a [u64; 8]),
    Fresh(u64),
}

// Entries with their tags, by rising board number: as heard, nine bytes each, or as a row stores them, by board number.
// Two arrays: a row keeps the tags of lasts as it keeps those of every other kind that it counts, and the entries, which only lasts have, apart.
#[derive(Clone, Copy)]
pub enum Entries<'a> {
    Heard(&'a [u8]),
    Stored {
        entries: &'a [Entry; 8],
        tags: &'a [u64; 8],
    },
}

// A lone board with its tag.
#[derive(Clone, Copy)]
pub struct Spoken<'a> {
    pub speaker: u8,
    pub tag: Tags<'a>,
}

impl<'a> Spoken<'a> {
    // The board as a set, with the same tag; no board for a number above 7.
    pub fn tagged(self) -> Tagged<'a>
        ensures set { result.set.bits ≡ only self.entry.speaker }
        ensures tags { result.tags ≡ self.entry.tag }
    {
        Tagged {
            set: Set::only(self.speaker),
            tags: self.tag,
        }
    }
}

// A set of boards with their tags.
#[derive(Clone, Copy)]
pub struct Tagged<'a> {
    pub set: Set,
    pub tags: Tags<'a>,
}

// A set of boards with their entries, each with its tag.
#[derive(Clone, Copy)]
pub struct Replies<'a> {
    pub set: Set,
    pub entries: Entries<'a>,
}

// What kinds 11 to 13 carry: the number-th payload of a sender.
#[derive(Clone, Copy)]
pub struct Content<'a> {
    pub sender: u8,
    pub number: u8,
    pub sort: Sort,
    pub payload: &'a [u8],
}

impl<'a> Content<'a> {
    // The sender with a tag of its own, as an init has it.
    pub fn spoken(self, tag: Tags<'a>) -> Spoken<'a>
        ensures speaker { result.speaker ≡ self.entry.sender }
        ensures tag { result.tag ≡ tag.entry }
    {
        Spoken {
            speaker: self.sender,
            tag,
        }
    }
}

// What a message says besides its view: thirteen kinds.
// Rank and change stay two fields where both are there: the rules ask for each by itself, and a struct of both would be taken apart in every arm.
#[derive(Clone, Copy)]
pub enum Body<'a> {
    Notify {
        change: u8,
        own: Spoken<'a>,
    },
    Suggest {
        change: u8,
        by: Tagged<'a>,
    },
    Ack {
        rank: u8,
        change: u8,
        own: Spoken<'a>,
    },
    Proposal {
        rank: u8,
        change: u8,
        by: Tagged<'a>,
    },
    Ready {
        rank: u8,
        change: u8,
        own: Spoken<'a>,
    },
    Change {
        rank: u8,
        change: u8,
        by: Tagged<'a>,
    },
    Deputy {
        rank: u8,
        own: Spoken<'a>,
    },
    Query {
        rank: u8,
        by: Tagged<'a>,
    },
    Last {
        rank: u8,
        entry: Entry,
        own: Spoken<'a>,
        proof: Tagged<'a>,
    },
    SuggestLast {
        rank: u8,
        replies: Replies<'a>,
        proof: Tagged<'a>,
    },
    Init {
        content: Content<'a>,
        tag: Tags<'a>,
    },
    Echo {
        content: Content<'a>,
        own: Spoken<'a>,
    },
    Commit {
        content: Content<'a>,
        by: Tagged<'a>,
    },
}

// A message: the view that it is for, and what it says there.
#[derive(Clone, Copy)]
pub struct Message<'a> {
    pub view: u8,
    pub body: Body<'a>,
}

impl<'a> Message<'a> {
    // Its kind.
    pub fn kind(&self) -> Kind
        ensures { kind_number result ≡ kind (meaning self.now) }
    {
        match self.body {
            Body::Notify { .. } => Kind::Notify,
            Body::Suggest { .. } => Kind::Suggest,
            Body::Ack { .. } => Kind::Ack,
            Body::Proposal { .. } => Kind::Proposal,
            Body::Ready { .. } => Kind::Ready,
            Body::Change { .. } => Kind::Change,
            Body::Deputy { .. } => Kind::Deputy,
            Body::Query { .. } => Kind::Query,
            Body::Last { .. } => Kind::Last,
            Body::SuggestLast { .. } => Kind::SuggestLast,
            Body::Init { .. } => Kind::Init,
            Body::Echo { .. } => Kind::Echo,
            Body::Commit { .. } => Kind::Commit,
        }
    }
}
