// Whether a row takes a message that it hears: first the cheap reasons, then the tags, then the scheme.
// Order: docs/REFUSALS.md. A value that no bytes spell, and a message of another layer, have no answer here.
#![tactic(auto)]

ghost use Rattle.checks.specs.Checks.{genuine};
ghost use Rattle.wire.specs.Messages.{meaning};
ghost use Rattle.wire.specs.Format.{Formed};
ghost use Rattle.row.specs.Refusals.{hear_refusal, Unless};
ghost use Rattle.admission.specs.Judged.{Judged};

use checks::all_good;
use codes::Refusal;
use refusals::first::{may_hear, may_trust};
use refusals::kinds::of_group;
use row::row::Row;
use schemes::Scheme;
use sending::is_formed;
use wire::message::Message;

// Whether the row takes a message, or why not: the tags are looked at only where no reason before them holds.
fn may_take<S: Scheme>(row: &Row, scheme: &S, m: &Message<'_>, room: usize) -> Result<(), Refusal>
    requires { Formed (meaning m.now) }
    ensures { Unless (hear_refusal row.now.state (meaning m.now) room (genuine (S.good scheme.now) (meaning m.now)) (S.spent scheme.now)) result }
{
    may_hear(row, m, room)?;
    may_trust(m, all_good(scheme, m), scheme.is_spent())
}

// Why the row does not take the message, or that it does; nothing if the message is not formed or of another layer.
// So an `Option` of the `Result`: a message that is not of this layer has no answer, and none of the reasons is one against it.
// An `if`, not `then`, which was tried: the search finds that the call may be made, but not that its answer is the one promised.
pub fn judge<S: Scheme>(
    row: &Row,
    scheme: &S,
    m: &Message<'_>,
    room: usize,
) -> Option<Result<(), Refusal>>
    ensures { Judged S.Scheme row.now.state scheme.now (meaning m.now) room result }
{
    if is_formed(m) && of_group(m) {
        Some(may_take(row, scheme, m, room))
    } else {
        None
    }
}
