// A notify, an ack, a ready, a deputy or a last that a row hears: the reason against it, or one more in its count.
// Rules: docs/RULES.md, "Changing the group". What each does: `heard` in the specs of crate row, Effects.antt.
ghost use Rattle.std.specs.Prelude.{◌≡◌, length};
ghost use Rattle.wire.specs.Messages.{meaning};
ghost use Rattle.row.specs.Effects.{heard};
ghost use Rattle.sending.specs.Sends.{HeardIf};
ghost use Rattle.counting.specs.Counts.{Counted, Taken, is_counted};

use crate::counts::{Tally, count, own_tag};
use crate::lasts::{acks_in, last};
use crate::leader::told;
use admission::judge;
use codes::Refusal;
use row::row::Row;
use row::state::Sent;
use schemes::Scheme;
use wire::message::{Body, Message};

// Whether a message is of the kinds that are counted.
fn is_counted(m: &Message<'_>) -> bool
    ensures { result ≡ is_counted (meaning m.now) }
{
    matches!(
        m.body,
        Body::Notify { .. }
            | Body::Ack { .. }
            | Body::Ready { .. }
            | Body::Deputy { .. }
            | Body::Last { .. }
    )
}

// What the row does with a message that it takes.
fn accepted(row: &mut Row, m: &Message<'_>, out: &mut [u8]) -> Sent
    requires { Taken row.old.state (meaning m.now) (length out.old) }
    ensures { Counted (heard row.old.state (meaning m.now)) out.old result row.new.state out.new }
{
    match m.body {
        Body::Notify { change, own } => count(row, m, Tally::Notify { change }, own.speaker, out),
        Body::Ack { rank, change, own } => count(
            row,
            m,
            Tally::Ack { rank, change },
            own.speaker,
            out,
        ),
        Body::Ready { rank, change, own } => count(
            row,
            m,
            Tally::Ready { rank, change },
            own.speaker,
            out,
        ),
        Body::Deputy { rank, own } => count(row, m, Tally::Deputy { rank }, own.speaker, out),
        Body::Last {
            rank,
            entry,
            own,
            proof,
        } => {
            let by = own.speaker;
            let leader = told(
                &row.state.leader,
                by,
                own_tag(m, by),
                entry,
                acks_in(m, proof.set),
            );
            last(row, rank, leader, out)
        }
        // `hear` has asked for the five kinds before.
        _ => unreachable(),
    }
}

// Hears a notify, an ack, a ready, a deputy or a last; any other message, and a value that no bytes spell, has no answer here.
// The scheme is only asked whether tags are good: a certificate is made of tags that the row has.
// An `Option` of the `Result`: no answer is neither a reason against the message nor something sent.
pub fn hear<S: Scheme>(
    row: &mut Row,
    scheme: &S,
    m: &Message<'_>,
    out: &mut [u8],
) -> Option<Result<Sent, Refusal>>
    ensures { HeardIf S.Scheme is_counted row.old.state scheme.now (meaning m.now) out.old result row.new.state scheme.now out.new }
{
    if !is_counted(m) {
        return None;
    }
    // Not `Result::map`: what a closure that it does not call leaves of its captures is not known.
    Some(match judge(row, scheme, m, out.len())? {
        Ok(()) => Ok(accepted(row, m, out)),
        Err(refusal) => Err(refusal),
    })
}
