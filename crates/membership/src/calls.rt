// The calls at a row: each answers the first reason against it and changes nothing, or does what the rules say.
// Rules: docs/RULES.md, "Changing the group". What each call promises: specs of crate row, Calls.antt.
ghost use Rattle.wire.specs.Messages.{meaning};
ghost use Rattle.std.specs.Prelude.{◌≡◌};
ghost use Rattle.changing.specs.Changes.{is_change};
ghost use Rattle.row.specs.Calls.{AsksOut, AsksIn, HeardAny};

use crate::asks::{asked_out, notify};
use codes::Refusal;
use refusals::first::{may_ask_in, may_ask_out};
use refusals::kinds::answered;
use row::row::Row;
use row::state::Sent;
use schemes::Scheme;
use voting::votes;
use wire::message::{Body, Message};

// Asks for another member to leave.
pub fn ask_out<S: Scheme>(
    row: &mut Row,
    scheme: &mut S,
    c: u8,
    out: &mut [u8],
) -> Result<Sent, Refusal>
    ensures { AsksOut S.Scheme row.old.state scheme.old c out.old result row.new.state scheme.new out.new }
{
    may_ask_out(row, c, out.len(), scheme.is_spent())?;
    Ok(asked_out(row, scheme, c, out))
}

// Asks for a board to join; `delivery` is the view in which reports are delivered, `None` where they are delivered in no view yet.
pub fn ask_in<S: Scheme>(
    row: &mut Row,
    scheme: &mut S,
    c: u8,
    delivery: Option<u8>,
    out: &mut [u8],
) -> Result<Sent, Refusal>
    ensures { AsksIn S.Scheme row.old.state scheme.old c delivery out.old result row.new.state scheme.new out.new }
{
    may_ask_in(row, c, delivery, out.len(), scheme.is_spent())?;
    Ok(notify(row, scheme, c, out))
}

// Whether a message is a change.
fn is_change(m: &Message<'_>) -> bool
    ensures { result ≡ is_change (meaning m.now) }
{
    matches!(m.body, Body::Change { .. })
}

// Hears a message of kinds 1 to 10; one of another layer, and a value that no bytes spell, has no answer here and changes nothing.
// So an `Option` of the `Result`: no answer is neither a reason against the message nor something sent.
pub fn hear<S: Scheme>(
    row: &mut Row,
    scheme: &mut S,
    m: &Message<'_>,
    out: &mut [u8],
) -> Option<Result<Sent, Refusal>>
    ensures { HeardAny S.Scheme row.old.state scheme.old (meaning m.now) out.old result row.new.state scheme.new out.new }
{
    if answered(m) {
        votes::hear(row, scheme, m, out)
    } else if is_change(m) {
        changing::hear(row, scheme, m, out)
    } else {
        counting::hear::hear(row, scheme, m, out)
    }
}
