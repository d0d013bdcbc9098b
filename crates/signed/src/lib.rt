// The tags of a message: whose they are, what each stands for, and the tag itself.
// Rules: docs/FRAMES.md, "Signed words". Words of the contracts: specs/Signed.antt.
#![tactic(auto)]

ghost use Rattle.std.specs.Prelude.{◌≡◌};
ghost use Rattle.wire.specs.Messages.{meaning};
ghost use Rattle.wire.specs.Acts.{proof_of};
ghost use Rattle.signed.specs.Places.{ProofLies};
ghost use Rattle.signed.specs.Signed.{ProofTagged, Proves, SignedBy, SignerTagged, States};

pub mod acks;
mod replies;
mod tags;

use crate::acks::Proof;
use crate::replies::{entry_of, lowest, reply_tag};
use crate::tags::{tag_by, whole_tag};
use boards::Set;
use wire::message::{Body, Entry, Message, Tagged, Tags};
use words::statement::{Claim, Statement};

// The boards whose tags a message has.
pub fn signers(m: &Message<'_>) -> Set
    ensures { SignedBy (meaning m.now) result }
{
    match m.body {
        Body::Notify { own, .. }
        | Body::Ack { own, .. }
        | Body::Ready { own, .. }
        | Body::Deputy { own, .. }
        | Body::Last { own, .. }
        | Body::Echo { own, .. } => Set::only(own.speaker),
        Body::Init { content, .. } => Set::only(content.sender),
        Body::Suggest { by, .. }
        | Body::Proposal { by, .. }
        | Body::Change { by, .. }
        | Body::Query { by, .. }
        | Body::Commit { by, .. } => by.set,
        Body::SuggestLast { replies, .. } => replies.set,
    }
}

// What the board's tag in a message stands for; nothing for a board that is not among the signers.
pub fn statement<'a>(m: &Message<'a>, board: u8) -> Option<Statement<'a>>
    ensures { States (meaning m.now) board result }
{
    if !signers(m).has(board) {
        return None;
    }
    let claim = match m.body {
        Body::Notify { change, .. } | Body::Suggest { change, .. } => Claim::Notify { change },
        Body::Ack { rank, change, .. } | Body::Proposal { rank, change, .. } => {
            Claim::Ack { rank, change }
        }
        Body::Ready { rank, change, .. } | Body::Change { rank, change, .. } => {
            Claim::Ready { rank, change }
        }
        Body::Deputy { rank, .. } | Body::Query { rank, .. } => Claim::Deputy { rank },
        Body::Last { rank, entry, .. } => Claim::Last { rank, entry },
        Body::SuggestLast { rank, replies, .. } => {
            let entry = entry_of(replies, board)?;
            Claim::Last { rank, entry }
        }
        Body::Init { content, .. } => Claim::Init { content },
        Body::Echo { content, .. } | Body::Commit { content, .. } => Claim::Echo { content },
    };
    Some(Statement {
        view: m.view,
        claim,
    })
}

// The board's tag in a message; none for a board that is not among the signers, or whose tag is not eight bytes.
// The kinds stand here as in `signers`: a set of boards does not tell where their tags lie.
pub fn tag(m: &Message<'_>, board: u8) -> Option<u64>
    ensures { SignerTagged (meaning m.now) board result }
{
    match m.body {
        Body::Notify { own, .. }
        | Body::Ack { own, .. }
        | Body::Ready { own, .. }
        | Body::Deputy { own, .. }
        | Body::Echo { own, .. } => tag_by(own.tagged(), board),
        Body::Init { content, tag } => tag_by(content.spoken(tag).tagged(), board),
        Body::Last { own, .. } => whole_tag(own, board),
        Body::Suggest { by, .. }
        | Body::Proposal { by, .. }
        | Body::Change { by, .. }
        | Body::Query { by, .. }
        | Body::Commit { by, .. } => tag_by(by, board),
        Body::SuggestLast { replies, .. } => reply_tag(replies, board),
    }
}

// The entry of the lowest earlier rank told in a message, that of the lowest board where several have it; none where there is no rank.
pub fn lowest_entry(m: &Message<'_>) -> Entry
    ensures { result ≡ (proof_of (meaning m.now)).entry }
{
    match m.body {
        Body::Last { entry, .. } => entry,
        Body::SuggestLast { replies, .. } => lowest(replies),
        _ => Entry::NONE,
    }
}

// The boards of a message's proof and the ack that their tags stand for; nothing if there is no proof.
pub fn proof(m: &Message<'_>) -> Option<Proof>
    ensures { Proves (meaning m.now) result }
{
    let boards = proof_by(m).set;
    if boards == Set::EMPTY {
        return None;
    }
    let Entry { earlier, change } = lowest_entry(m);
    let act = Statement {
        view: m.view,
        claim: Claim::Ack {
            rank: earlier,
            change,
        },
    };
    Some(Proof { boards, act })
}

// The board's tag in a message's proof; none for a board that is not in it, or whose tag is not eight bytes.
pub fn proof_tag(m: &Message<'_>, board: u8) -> Option<u64>
    ensures { ProofTagged (meaning m.now) board result }
{
    tag_by(proof_by(m), board)
}

// The boards of a message's proof with their tags; no board if there is no proof. No `Option`: who asks for a board's tag asks for a board first.
fn proof_by<'a>(m: &Message<'a>) -> Tagged<'a>
    ensures { ProofLies (meaning m.now) result }
{
    match m.body {
        Body::Last { proof, .. } | Body::SuggestLast { proof, .. } => proof,
        _ => Tagged {
            set: Set::EMPTY,
            tags: Tags::Heard(&[]),
        },
    }
}
