// What a row has in a new view: nothing voted and nothing counted.
// Rules: docs/RULES.md, "The row".
ghost use Rattle.std.specs.Prelude.{◌≡◌, ℕ, true, false};
ghost use Rattle.boards.specs.Boards.{member, size};
ghost use Rattle.row.specs.States.{new_voter, new_leader};
ghost use Rattle.row.specs.Rows.{keeps, tells, proves};

use crate::state::{Count, Leader, Stand, Voter};
use boards::Set;
use views::view::View;
use wire::message::Entry;

// The floor is three times the members, nobody is suspect and nothing is kept.
#[tactic(auto, using(boards::proofs::Members::member_none), unfolding(crate::specs::Rows::keeps))]
pub(crate) fn voter(view: &View) -> Voter
    ensures is { result ≡ new_voter (size view.now.set.bits) }
    ensures keeps { keeps result ≡ true }
    ensures trusts { (b : ℕ) → member result.suspects.bits b ≡ false }
{
    Voter {
        floor: 3 * view.len(),
        suspects: Set::EMPTY,
        kept: None,
        support: Count::NONE,
    }
}

// Idle, and nothing counted.
#[tactic(auto, unfolding(crate::specs::Rows::tells, crate::specs::Rows::proves, boards::specs::Boards::every, boards::specs::Boards::member))]
pub(crate) fn leader() -> Leader
    ensures is { result ≡ new_leader }
    ensures tells { tells result ≡ true }
    ensures proves { proves result ≡ true }
{
    Leader {
        stand: Stand::Idle,
        counts: [Count::NONE; 12],
        entries: [Entry::NONE; 8],
        lowest: Entry::NONE,
        proof: Count::NONE,
    }
}
