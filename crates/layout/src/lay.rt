// The layout of a message, kind by kind, in the order of the format's table.
// A value that no bytes spell, as view 0, a payload of 49 bytes or too few tags, has none.
ghost use Rattle.wire.specs.Kinds.{kind_number};
ghost use Rattle.wire.specs.Messages.{meaning};
ghost use Rattle.layout.specs.Layouts.{Bare, Behind, LaidOut, LaidLast, LaidSuggestLast, Loaded};

use crate::gather::gather;
use crate::measure::fits;
use crate::plan::{Front, Layout, Middle};
use crate::seal::lone;
use head::number::Head;
use head::shapes::{carried, entered, graded, noted, ranked};
use wire::field::SET;
use wire::kind::Kind;
use wire::message::{Body, Content, Entry, Message, Replies, Tagged};

// The layout of a message, if there are bytes that spell it.
// An arm for each kind: two kinds of one shape in one arm would be no shorter, since each names its fields anyway.
pub fn lay_out<'a>(m: &Message<'a>) -> Option<Layout<'a>>
    ensures { LaidOut (meaning m.now) result }
{
    let view = m.view;
    match m.body {
        Body::Notify { change, own } => bare(noted(Kind::Notify, view, change)?).alone(own),
        Body::Suggest { change, by } => bare(noted(Kind::Suggest, view, change)?).sealed(by),
        Body::Ack { rank, change, own } => bare(graded(Kind::Ack, view, rank, change)?).alone(own),
        Body::Proposal { rank, change, by } => {
            bare(graded(Kind::Proposal, view, rank, change)?).sealed(by)
        }
        Body::Ready { rank, change, own } => {
            bare(graded(Kind::Ready, view, rank, change)?).alone(own)
        }
        Body::Change { rank, change, by } => {
            bare(graded(Kind::Change, view, rank, change)?).sealed(by)
        }
        Body::Deputy { rank, own } => bare(ranked(Kind::Deputy, view, rank)?).alone(own),
        Body::Query { rank, by } => bare(ranked(Kind::Query, view, rank)?).sealed(by),
        Body::Last {
            rank,
            entry,
            own,
            proof,
        } => last(ranked(Kind::Last, view, rank)?, entry, lone(own)?, proof),
        Body::SuggestLast {
            rank,
            replies,
            proof,
        } => suggest_last(ranked(Kind::SuggestLast, view, rank)?, replies, proof),
        Body::Init { content, tag } => {
            loaded(Kind::Init, view, content)?.alone(content.spoken(tag))
        }
        Body::Echo { content, own } => loaded(Kind::Echo, view, content)?.alone(own),
        Body::Commit { content, by } => loaded(Kind::Commit, view, content)?.sealed(by),
    }
}

// A head alone.
fn bare<'a>(head: Head) -> Front<'a>
    ensures { Bare head result }
{
    Front {
        head,
        middle: Middle::Nothing,
    }
}

// A content, with its payload behind the head.
fn loaded<'a>(kind: Kind, view: u8, content: Content<'a>) -> Option<Front<'a>>
    ensures { Loaded (kind_number kind) view content.entry result }
{
    Some(behind(carried(kind, view, content)?, content.payload))
}

// A head and a payload.
fn behind<'a>(head: Head, payload: &'a [u8]) -> Front<'a>
    ensures { Behind head payload.entry result }
{
    Front {
        head,
        middle: Middle::Payload(payload),
    }
}

// The speaker's set and entry close the head; its tag stands before the proof.
fn last<'a>(head: Head, entry: Entry, own: Tagged<'a>, proof: Tagged<'a>) -> Option<Layout<'a>>
    ensures { LaidLast head entry own.entry proof.entry result }
{
    let head = entered(head.of(SET, usize::from(own.set.bits))?, entry)?;
    if !fits(own) {
        return None;
    }
    let front = Front {
        head,
        middle: Middle::Tag(own),
    };
    front.proven(entry.earlier, proof)
}

// The set closes the head; the replies of its boards stand before the proof.
fn suggest_last<'a>(head: Head, replies: Replies<'a>, proof: Tagged<'a>) -> Option<Layout<'a>>
    ensures { LaidSuggestLast head replies.entry proof.entry result }
{
    let head = head.of(SET, usize::from(replies.set.bits))?;
    let gathered = gather(replies)?;
    let front = Front {
        head,
        middle: Middle::Replies(gathered),
    };
    front.proven(gathered.top, proof)
}
