// What a row tells of what its voter keeps, and the acks that a proposal came with.
// Words of the contracts: specs/Votes.antt, and specs of crate row, Effects.antt.
ghost use Rattle.std.specs.Prelude.{◌≡◌};
ghost use Rattle.wire.specs.Messages.{meaning};
ghost use Rattle.wire.specs.Acts.{signers};
ghost use Rattle.row.specs.States.{kept_entry};
ghost use Rattle.row.specs.Effects.{heard_tag, told_proof};
ghost use Rattle.voting.specs.Votes.{heard_count, WholeTags};

use boards::Set;
use row::row::Row;
use row::state::{Count, Kept};
use signed::{signers, tag};
use std::array;
use wire::message::{Entry, Message};

// The tag of a signer of a message; 0 for another board.
fn heard_tag(m: &Message<'_>, board: u8) -> u64
    requires { WholeTags (meaning m.now) }
    ensures { result ≡ heard_tag (meaning m.now) (signers (meaning m.now)) board }
{
    tag(m, board).unwrap_or(0)
}

// The tags of the signers of a message, by board number.
pub(crate) fn heard_count(m: &Message<'_>) -> Count
    requires { WholeTags (meaning m.now) }
    ensures { result ≡ heard_count (meaning m.now) }
{
    Count {
        set: signers(m),
        tags: array::from_fn(|board| heard_tag(m, board as u8)),
    }
}

// The entry that a row tells: its kept proposal, or none.
pub(crate) fn kept_entry(row: &Row) -> Entry
    ensures { result ≡ kept_entry row.now.state.voter.kept }
{
    row.state.voter.kept.map_or(Entry::NONE, Entry::from)
}

// The acks that it has to show for that.
pub(crate) fn shown(row: &Row) -> Count
    ensures set { result.set.bits ≡ told_proof row.now.state }
    ensures tags { result.tags ≡ row.now.state.voter.support.tags }
{
    let support = row.state.voter.support;
    if kept_entry(row).earlier == 0 {
        Count {
            set: Set::EMPTY,
            ..support
        }
    } else {
        support
    }
}
