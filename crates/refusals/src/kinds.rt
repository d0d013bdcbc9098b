// What the kind of a message says alone: whether it is of this layer, whether the row signs when it takes it.
// Rules: docs/RULES.md, "Changing the group".
ghost use Rattle.std.specs.Prelude.{◌≡◌};
ghost use Rattle.wire.specs.Messages.{meaning};
ghost use Rattle.row.specs.Refusals.{answered, of_group};

use wire::message::{Body, Message};

// Whether a message is of the layer that changes the group: kinds 1 to 10.
pub fn of_group(m: &Message<'_>) -> bool
    ensures { result ≡ of_group (meaning m.now) }
{
    !matches!(
        m.body,
        Body::Init { .. } | Body::Echo { .. } | Body::Commit { .. }
    )
}

// Whether the row signs when it takes the message.
pub fn answered(m: &Message<'_>) -> bool
    ensures { result ≡ answered (meaning m.now) }
{
    matches!(
        m.body,
        Body::Suggest { .. } | Body::Proposal { .. } | Body::Query { .. } | Body::SuggestLast { .. }
    )
}
