// Reads heard bytes: the message that they spell, or the first fault met from the front.
// Rules: docs/FRAMES.md, "Faults". Nothing is copied: the message names parts of the heard bytes.
ghost use Rattle.wire.specs.Reads.{Reads};
ghost use Rattle.reader.specs.Told.{told, OpeningRead, BodyRead};

use crate::heads::Graded;
use crate::parts::Answer;
use crate::place::{Half, Reader};
use grammar::fault::Fault;
use wire::field::{KIND, VIEW};
use wire::kind::Kind;
use wire::message::{Body, Message, Spoken, Tags};

pub fn read<'a>(bytes: &'a [u8]) -> Result<Message<'a>, Fault>
    ensures { Reads bytes.now (told result) }
{
    let opening = Opening::read(bytes)?;
    let body = opening.body()?;
    Ok(Message {
        view: opening.view,
        body,
    })
}

// How every message begins: kind, view, and where the rest of its head is.
#[derive(Clone, Copy)]
pub struct Opening<'a> {
    pub kind: Kind,
    pub view: u8,
    pub head: Half<'a>,
}

impl<'a> Opening<'a> {
    // The field of kinds has no number but those of kinds.
    fn read(bytes: &'a [u8]) -> Result<Opening<'a>, Fault>
        ensures { OpeningRead bytes.now result }
    {
        let mut reader = Reader::new(bytes);
        let kind = Kind::try_from(reader.value(KIND)?).unwrap();
        let view = reader.value(VIEW)?;
        Ok(Opening {
            kind,
            view,
            head: Half { reader },
        })
    }

    // What follows kind and view, up to the message's end. An arm for each kind: two of one shape in one arm would name their fields anyway.
    fn body(self) -> Result<Body<'a>, Fault>
        ensures { BodyRead self.entry result }
    {
        let head = self.head;
        match self.kind {
            Kind::Notify => {
                let (change, rest) = head.change()?;
                let own = rest.spoken()?;
                Ok(Body::Notify { change, own })
            }
            Kind::Suggest => {
                let (change, rest) = head.change()?;
                let by = rest.tagged()?;
                Ok(Body::Suggest { change, by })
            }
            Kind::Ack => {
                let (Graded { rank, change }, rest) = head.graded()?;
                let own = rest.spoken()?;
                Ok(Body::Ack { rank, change, own })
            }
            Kind::Proposal => {
                let (Graded { rank, change }, rest) = head.graded()?;
                let by = rest.tagged()?;
                Ok(Body::Proposal { rank, change, by })
            }
            Kind::Ready => {
                let (Graded { rank, change }, rest) = head.graded()?;
                let own = rest.spoken()?;
                Ok(Body::Ready { rank, change, own })
            }
            Kind::Change => {
                let (Graded { rank, change }, rest) = head.graded()?;
                let by = rest.tagged()?;
                Ok(Body::Change { rank, change, by })
            }
            Kind::Deputy => {
                let (rank, rest) = head.rank()?;
                let own = rest.spoken()?;
                Ok(Body::Deputy { rank, own })
            }
            Kind::Query => {
                let (rank, rest) = head.rank()?;
                let by = rest.tagged()?;
                Ok(Body::Query { rank, by })
            }
            Kind::Last => {
                let (rank, rest) = head.rank()?;
                let (speaker, rest) = rest.lone()?;
                let (Answer { entry, tag }, rest) = rest.answer()?;
                let proof = rest.proof(entry.earlier)?;
                let tag = Tags::Heard(tag);
                let own = Spoken { speaker, tag };
                Ok(Body::Last {
                    rank,
                    entry,
                    own,
                    proof,
                })
            }
            Kind::SuggestLast => {
                let (rank, rest) = head.rank()?;
                let ((replies, highest), rest) = rest.replies()?;
                let proof = rest.proof(highest)?;
                Ok(Body::SuggestLast {
                    rank,
                    replies,
                    proof,
                })
            }
            Kind::Init => {
                let (content, rest) = head.carried()?;
                let tag = rest.own(content.sender)?;
                Ok(Body::Init { content, tag })
            }
            Kind::Echo => {
                let (content, rest) = head.carried()?;
                let own = rest.spoken()?;
                Ok(Body::Echo { content, own })
            }
            Kind::Commit => {
                let (content, rest) = head.carried()?;
                let by = rest.tagged()?;
                Ok(Body::Commit { content, by })
            }
        }
    }
}
