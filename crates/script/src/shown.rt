// A message as the rest of an answer line: its kind's name, then its fields in the order of the kind.
// The texts: specs/Shown.antt, of what the message means; where its bytes lie makes no difference.
ghost use Rattle.wire.specs.Messages.{meaning, replies_by, tag_by, tags_by};
ghost use Rattle.script.specs.Shown.{opening, ranked, graded, spoken, reply_text, reply_of, gathered, proof_text, replies_text, content_text, shown};

use crate::line::{Field, Text};
use crate::lists::{Boards, EntriesOf, TagsOf};
use crate::numbers::Payload;
use std::alloc::AllocError;
use wire::kind::Kind;
use wire::message::{Body, Content, Entry, Message, Replies, Spoken, Tagged};

// The kind's name and the view.
#[derive(Clone, Copy)]
struct Opening {
    kind: Kind,
    view: u8,
}

impl Text for Opening {
    ghost text = { λ o. opening o.kind o.view };

    fn write(&self, line: &mut Vec<u8>) -> Result<(), AllocError> {
        (self.kind.name(), Field("view", self.view)).write(line)
    }
}

// An opening and the rank.
#[derive(Clone, Copy)]
struct Ranked {
    opening: Opening,
    rank: u8,
}

impl Text for Ranked {
    ghost text = { λ r. ranked r.opening.kind r.opening.view r.rank };

    fn write(&self, line: &mut Vec<u8>) -> Result<(), AllocError> {
        (self.opening, Field("rank", self.rank)).write(line)
    }
}

// The same with the change.
#[derive(Clone, Copy)]
struct Graded {
    ranked: Ranked,
    change: u8,
}

impl Text for Graded {
    ghost text = { λ g. graded g.ranked.opening.kind g.ranked.opening.view g.ranked.rank g.change };

    fn write(&self, line: &mut Vec<u8>) -> Result<(), AllocError> {
        (self.ranked, Field("change", self.change)).write(line)
    }
}

// A lone board with its tag.
impl Text for Spoken<'_> {
    ghost text = { λ s. spoken s.speaker (tag_by s) };

    fn write(&self, line: &mut Vec<u8>) -> Result<(), AllocError> {
        (Field("from", self.speaker), Field("tag", self.tagged())).write(line)
    }
}

// A lone board with its entry and its tag.
#[derive(Clone, Copy)]
struct Reply<'a> {
    entry: Entry,
    own: Spoken<'a>,
}

impl Text for Reply<'_> {
    ghost text = { λ r. reply_text r.own.speaker (reply_of r.entry (tag_by r.own)) };

    fn write(&self, line: &mut Vec<u8>) -> Result<(), AllocError> {
        (
            Field("from", self.own.speaker),
            (Field("entry", self.entry), Field("tag", self.own.tagged())),
        )
            .write(line)
    }
}

// A set and the tags of its boards.
#[derive(Clone, Copy)]
struct Gathered<'a>(Tagged<'a>);

impl Text for Gathered<'_> {
    ghost text = { λ g. gathered g.0.set.bits (tags_by g.0) };

    fn write(&self, line: &mut Vec<u8>) -> Result<(), AllocError> {
        (Field("set", Boards(self.0.set)), Field("tags", self.0)).write(line)
    }
}

// A proof: the boards that acknowledged, and their tags. Apart from `Gathered`: with both names in one struct, six places would have to give them.
#[derive(Clone, Copy)]
struct Proof<'a>(Tagged<'a>);

impl Text for Proof<'_> {
    ghost text = { λ p. proof_text p.0.set.bits (tags_by p.0) };

    fn write(&self, line: &mut Vec<u8>) -> Result<(), AllocError> {
        (
            Field("proof", Boards(self.0.set)),
            Field("prooftags", self.0),
        )
            .write(line)
    }
}

// A set with the entries of its boards and their tags.
impl Text for Replies<'_> {
    ghost text = { λ r. replies_text r.set.bits (replies_by r) };

    fn write(&self, line: &mut Vec<u8>) -> Result<(), AllocError> {
        (
            Field("set", Boards(self.set)),
            (
                Field("entries", EntriesOf(*self)),
                Field("tags", TagsOf(*self)),
            ),
        )
            .write(line)
    }
}

// What a sender's message carries.
impl Text for Content<'_> {
    ghost text = { λ c. content_text c.sender c.number c.sort c.payload.now };

    fn write(&self, line: &mut Vec<u8>) -> Result<(), AllocError> {
        (
            Field("sender", self.sender),
            (
                Field("number", self.number),
                (Field("sort", self.sort.name()), Payload(self.payload)),
            ),
        )
            .write(line)
    }
}

impl Text for Message<'_> {
    ghost text = { λ m. shown (meaning m) };

    fn write(&self, line: &mut Vec<u8>) -> Result<(), AllocError> {
        let opening = Opening {
            kind: self.kind(),
            view: self.view,
        };
        match self.body {
            Body::Notify { change, own } => (opening, (Field("change", change), own)).write(line),
            Body::Suggest { change, by } => {
                (opening, (Field("change", change), Gathered(by))).write(line)
            }
            Body::Ack { rank, change, own } | Body::Ready { rank, change, own } => {
                let ranked = Ranked { opening, rank };
                (Graded { ranked, change }, own).write(line)
            }
            Body::Proposal { rank, change, by } | Body::Change { rank, change, by } => {
                let ranked = Ranked { opening, rank };
                (Graded { ranked, change }, Gathered(by)).write(line)
            }
            Body::Deputy { rank, own } => (Ranked { opening, rank }, own).write(line),
            Body::Query { rank, by } => (Ranked { opening, rank }, Gathered(by)).write(line),
            Body::Last {
                rank,
                entry,
                own,
                proof,
            } => {
                let reply = Reply { entry, own };
                (Ranked { opening, rank }, (reply, Proof(proof))).write(line)
            }
            Body::SuggestLast {
                rank,
                replies,
                proof,
            } => { (Ranked { opening, rank }, (replies, Proof(proof))).write(line) }
            Body::Init { content, tag } => {
                let own = content.spoken(tag).tagged();
                (opening, (content, Field("tag", own))).write(line)
            }
            Body::Echo { content, own } => (opening, (content, own)).write(line),
            Body::Commit { content, by } => (opening, (content, Gathered(by))).write(line),
        }
    }
}
