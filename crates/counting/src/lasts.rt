// The lasts that a deputy counts: the proof that each may bring, and the suggest-last once a quorum told.
// Rules: docs/RULES.md, "Changing the group". What a last does: `heard` in the specs of crate row, Effects.antt.
ghost use Rattle.std.specs.Prelude.{◌≡◌, ◌≤◌, cond, length, true};
ghost use Rattle.boards.specs.Boards.{member, place};
ghost use Rattle.wire.specs.Messages.{meaning};
ghost use Rattle.wire.specs.Acts.{proof_of, tag_at, tag_number};
ghost use Rattle.row.specs.Rows.{tells, proves};
ghost use Rattle.row.specs.Effects.{proof_count};
ghost use Rattle.counting.specs.Counts.{Counted, WholeProof, last_certificate, tallied_lasts};

use boards::Set;
use row::row::Row;
use row::state::{Count, Leader, Sent, Slot, Stand};
use seats::called_for;
use sending::{NOTHING, post};
use signed::proof_tag;
use std::array;
use wire::message::{Body, Entries, Message, Replies};

// The ack that a board of the set has in a message whose proof the set is; 0 for another board.
fn ack_in(m: &Message<'_>, proof: Set, board: u8) -> u64
    requires { WholeProof (meaning m.now) proof.bits }
    ensures { result ≡ cond (member proof.bits board) (tag_number (tag_at (place proof.bits board) (proof_of (meaning m.now)).acks)) 0 }
{
    proof_tag(m, board).unwrap_or(0)
}

// The acks of a message's proof, by board number.
pub(crate) fn acks_in(m: &Message<'_>, proof: Set) -> Count
    requires { WholeProof (meaning m.now) proof.bits }
    ensures { result ≡ proof_count proof.bits (proof_of (meaning m.now)).acks }
{
    Count {
        set: proof,
        tags: array::from_fn(|board| ack_in(m, proof, board as u8)),
    }
}

// The lasts of a full count in a view, with the proof for the lowest earlier rank among them.
fn certificate<'a>(view: u8, rank: u8, leader: &'a Leader, full: &'a Count) -> Message<'a>
    ensures { meaning result ≡ last_certificate view rank leader.now full.now }
{
    let entries = Entries::Stored {
        entries: &leader.entries,
        tags: &full.tags,
    };
    let replies = Replies {
        set: full.set,
        entries,
    };
    let proof = leader.proof.tagged();
    Message {
        view,
        body: Body::SuggestLast {
            rank,
            replies,
            proof,
        },
    }
}

// Takes a leader that counted one last more; once a quorum told it waits for acks of what they call for, and the suggest-last goes out.
pub(crate) fn last(row: &mut Row, rank: u8, leader: Leader, out: &mut [u8]) -> Sent
    requires rank { (1 ≤ rank) × (rank ≤ 8) }
    requires tells { tells leader ≡ true }
    requires proves { proves leader ≡ true }
    requires room { 128 ≤ length out.old }
    ensures { Counted (tallied_lasts row.old.state leader rank) out.old result row.new.state out.new }
{
    let view = row.view();
    let full = leader.at(Slot::Last);
    if full.set.len() == view.quorum() {
        let m = certificate(row.latest(), rank, &leader, &full);
        let change = called_for(row, leader.lowest);
        row.state.leader = Leader {
            stand: Stand::Acks { change },
            ..leader
        };
        post(&m, view.set(), out).unwrap()
    } else {
        row.state.leader = leader;
        NOTHING
    }
}
