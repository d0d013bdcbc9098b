// The state of a row: plain values, fixed memory. A new view makes voter and leader anew.
// Rules: docs/RULES.md, "The row".
ghost use Rattle.std.specs.Prelude.{◌≡◌, ◌<◌, length};
ghost use Rattle.wire.specs.Messages.{tags_by};
ghost use Rattle.row.specs.States.{count_at, count_tags, place_of, told_of};

use boards::Set;
use views::history::History;
use wire::message::{Entry, Tagged, Tags};

// Whose lone messages were counted, with their tags by board number.
// A set beside the tags and no `Option` at each: a certificate is that set and those tags, and is written from them without a copy.
#[derive(Clone, Copy)]
pub struct Count {
    pub set: Set,
    pub tags: [u64; 8],
}

impl Count {
    // A constant, which a `Default` is not.
    pub const NONE: Count = Count {
        set: Set::EMPTY,
        tags: [0; 8],
    };

    // Its boards with their tags, as a message has them.
    pub fn tagged(&self) -> Tagged<'_>
        ensures set { result.set.bits ≡ self.now.set.bits }
        ensures tags { tags_by result ≡ count_tags self.now }
    {
        Tagged {
            set: self.set,
            tags: Tags::Stored(&self.tags),
        }
    }
}

// Which of a leader's counts a lone message goes to: notifies are counted change by change, the other kinds once each.
#[derive(Clone, Copy)]
pub enum Slot {
    Notify(u8),
    Ack,
    Ready,
    Deputy,
    Last,
}

impl Slot {
    // Its place in the table of counts.
    pub fn place(self) -> u8
        ensures { result ≡ place_of self }
    {
        match self {
            Slot::Notify(change) => change,
            Slot::Ack => 8,
            Slot::Ready => 9,
            Slot::Deputy => 10,
            Slot::Last => 11,
        }
    }
}

// A proposal that the row keeps.
#[derive(Clone, Copy)]
pub struct Kept {
    pub rank: u8,
    pub change: u8,
}

// What a row tells of the proposal that it keeps.
impl From<Kept> for Entry {
    ghost from_gives = { λ k e. e ≡ told_of k };

    fn from(k: Kept) -> Entry {
        Entry {
            earlier: k.rank,
            change: k.change,
        }
    }
}

// Where the row stands as manager or deputy.
#[derive(Clone, Copy, Debug, PartialEq, Eq)]
pub enum Stand {
    Idle,
    Acks { change: u8 },
    Readies { change: u8 },
    Lasts,
    Done,
}

// What the row voted in its latest view: the floor only falls, so that no step is answered twice;
// the boards it suspects; the proposal it keeps, and beside it the acks that proposal came with.
// The acks are not inside the proposal, which is no plainer: a last shows them as one `Count`, with no boards where nothing is kept.
#[derive(Clone, Copy)]
pub struct Voter {
    pub floor: u8,
    pub suspects: Set,
    pub kept: Option<Kept>,
    pub support: Count,
}

// What the row counts as manager or deputy, slot by slot: a table, not five fields, since the five counting kinds share one rule;
// the entries of the lasts by board number; the lowest earlier rank among them, and the proof that was first heard with it.
// Entries stand beside the counts, not in them: the five kinds share one `Count`, and only lasts tell entries.
// That nothing is told yet is rank 0 of `lowest`, the entries' own word for none.
#[derive(Clone, Copy)]
pub struct Leader {
    pub stand: Stand,
    pub counts: [Count; 12],
    pub entries: [Entry; 8],
    pub lowest: Entry,
    pub proof: Count,
}

impl Leader {
    // What is counted in a slot; nothing past the table.
    pub fn at(&self, slot: Slot) -> Count
        ensures is { result ≡ count_at self.now slot }
        ensures byte { result.set.bits < 256 }
        ensures table { length self.now.counts ≡ 12 }
    {
        self.counts
            .get(usize::from(slot.place()))
            .copied()
            .unwrap_or(Count::NONE)
    }
}

#[derive(Clone, Copy)]
pub struct State {
    pub board: u8,
    pub views: History,
    pub voter: Voter,
    pub leader: Leader,
}

// The bytes that are enough for every message that a board sends; a call that is offered fewer is refused.
pub const ENOUGH: usize = 128;

// What an accepted call sent: to whom, and how many of the offered bytes the message has; no boards and 0 where nothing is sent.
// No `Option`: by the rules every accepted call answers boards and a length, and who sends to nobody has nothing to tell apart.
#[derive(Clone, Copy)]
pub struct Sent {
    pub to: Set,
    pub length: usize,
}
