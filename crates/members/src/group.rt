// MEMBER and CHANGE: who speaks or is named is in the view, and the change can be made in it.
// Rules: docs/RULES.md, "Changing the group".
ghost use Rattle.std.specs.Prelude.{◌≡◌};
ghost use Rattle.wire.specs.Messages.{meaning};
ghost use Rattle.row.specs.Refusals.{stranger, barred};

use crate::entries::{misplaced, some_misplaced};
use crate::ranks::{empties, inside, strays};
use row::row::Row;
use signed::signers;
use views::history::LAST;
use wire::message::{Body, Message};

// MEMBER: the row's board (but in a change), a speaker, a set, a proof's set or the rank is not in the view;
// rank n in kinds 7 to 10; an earlier rank is misplaced.
pub fn stranger(row: &Row, m: &Message<'_>) -> bool
    ensures { result ≡ stranger row.now.state (meaning m.now) }
{
    let view = row.view();
    let n = view.len();
    let strange = strays(signers(m), &view);
    let beyond = !inside(row) || strange;
    match m.body {
        Body::Notify { .. } | Body::Suggest { .. } => beyond,
        Body::Ack { rank, .. } | Body::Proposal { rank, .. } | Body::Ready { rank, .. } => {
            beyond || n < rank
        }
        Body::Change { rank, .. } => strange || n < rank,
        Body::Deputy { rank, .. } | Body::Query { rank, .. } => beyond || n <= rank,
        Body::Last {
            rank,
            entry,
            proof,
            ..
        } => { beyond || strays(proof.set, &view) || n <= rank || misplaced(rank, n, entry) }
        Body::SuggestLast { rank, proof, .. } => {
            beyond || strays(proof.set, &view) || n <= rank || some_misplaced(m, rank, n)
        }
        _ => false,
    }
}

// CHANGE: there is no view after the 64th, and kinds 1 to 6 do not remove the only member.
pub fn barred(row: &Row, m: &Message<'_>) -> bool
    ensures { result ≡ barred row.now.state (meaning m.now) }
{
    let last = row.latest() >= LAST;
    match m.body {
        Body::Notify { change, .. }
        | Body::Suggest { change, .. }
        | Body::Ack { change, .. }
        | Body::Proposal { change, .. }
        | Body::Ready { change, .. }
        | Body::Change { change, .. } => last || empties(row, change),
        Body::Deputy { .. } | Body::Query { .. } | Body::Last { .. } | Body::SuggestLast { .. } =>
            last,
        _ => false,
    }
}
