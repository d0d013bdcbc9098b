// When a row takes a message: TURN, whether a lone message is waited for; LATE, whether the row already went further; KNOWN, whether the speaker is counted.
// Rules: docs/RULES.md, "Changing the group". What each test says: specs of crate row, Refusals.antt.
#![tactic(auto)]

ghost use Rattle.std.specs.Prelude.{◌≡◌, ◌-◌, ◌*◌};
ghost use Rattle.wire.specs.Messages.{meaning};
ghost use Rattle.row.specs.States.{at_rank};
ghost use Rattle.row.specs.Refusals.{untimely, late, known, counted_already};

use row::row::Row;
use row::state::{Slot, Stand};
use wire::message::{Body, Message};

// Whether the row's board has this rank in the latest view.
fn at_rank(row: &Row, rank: u8) -> bool
    ensures { result ≡ at_rank row.now.state rank }
{
    row.view().rank(row.board()) == Some(rank)
}

// TURN: a lone message is counted only by the rank it is for, at the moment it is waited for.
pub fn untimely(row: &Row, m: &Message<'_>) -> bool
    ensures { result ≡ untimely row.now.state (meaning m.now) }
{
    let awaited = match m.body {
        Body::Notify { .. } => Some((row.view().len(), Stand::Idle)),
        Body::Ack { rank, change, .. } => Some((rank, Stand::Acks { change })),
        Body::Ready { rank, change, .. } => Some((rank, Stand::Readies { change })),
        Body::Deputy { rank, .. } => Some((rank, Stand::Idle)),
        Body::Last { rank, .. } => Some((rank, Stand::Lasts)),
        _ => None,
    };
    awaited.is_some_and(|(rank, stand)| !(at_rank(row, rank) && row.state.leader.stand == stand))
}

// The step that rank k asks for: so many below three times the rank.
fn step(k: u8, below: u16) -> u16
    ensures { result ≡ 3 * k - below }
{
    (3 * u16::from(k)).saturating_sub(below)
}

// LATE: the floor is not above the step that the message asks for.
pub fn late(row: &Row, m: &Message<'_>) -> bool
    ensures { result ≡ late row.now.state (meaning m.now) }
{
    let asked = match m.body {
        Body::Suggest { .. } => Some(step(row.view().len(), 1)),
        Body::Proposal { rank, .. } => Some(step(rank, 2)),
        Body::Query { rank, .. } => Some(step(rank, 0)),
        Body::SuggestLast { rank, .. } => Some(step(rank, 1)),
        _ => None,
    };
    asked.is_some_and(|step| u16::from(row.state.voter.floor) <= step)
}

// Whether the board's message for this slot is counted.
fn counted_already(row: &Row, slot: Slot, board: u8) -> bool
    ensures { result ≡ counted_already row.now.state slot board }
{
    row.state.leader.at(slot).set.has(board)
}

// KNOWN: the speaker is counted already. Where the message is counted stands here; crate `counting`, above, has it by what it counts.
pub fn known(row: &Row, m: &Message<'_>) -> bool
    ensures { result ≡ known row.now.state (meaning m.now) }
{
    let told = match m.body {
        Body::Notify { change, own } => Some((Slot::Notify(change), own.speaker)),
        Body::Ack { own, .. } => Some((Slot::Ack, own.speaker)),
        Body::Ready { own, .. } => Some((Slot::Ready, own.speaker)),
        Body::Deputy { own, .. } => Some((Slot::Deputy, own.speaker)),
        Body::Last { own, .. } => Some((Slot::Last, own.speaker)),
        _ => None,
    };
    told.is_some_and(|(slot, speaker)| counted_already(row, slot, speaker))
}
