// SIZE: how many boards a set has that gathers tags.
// Rules: docs/RULES.md, "Changing the group".
ghost use Rattle.std.specs.Prelude.{◌≡◌};
ghost use Rattle.wire.specs.Messages.{meaning};
ghost use Rattle.row.specs.Refusals.{misfit, odd_proof};

use boards::Set;
use row::row::Row;
use wire::message::{Body, Message};

// Whether a proof has boards, and not a quorum of them.
fn odd_proof(row: &Row, proof: Set) -> bool
    ensures { result ≡ odd_proof row.now.state proof.bits }
{
    !proof.is_empty() && proof.len() != row.view().quorum()
}

// SIZE: exactly f + 1 boards in a suggest and a query, exactly a quorum in a proposal, a change, a suggest-last and a proof.
pub fn misfit(row: &Row, m: &Message<'_>) -> bool
    ensures { result ≡ misfit row.now.state (meaning m.now) }
{
    let quorum = row.view().quorum();
    match m.body {
        Body::Suggest { by, .. } | Body::Query { by, .. } => by.set.len()
            != row.view().one_correct(),
        Body::Proposal { by, .. } | Body::Change { by, .. } => by.set.len() != quorum,
        Body::Last { proof, .. } => odd_proof(row, proof.set),
        Body::SuggestLast { replies, proof, .. } => replies.set.len() != quorum
            || odd_proof(row, proof.set),
        _ => false,
    }
}
