// A view: a set of boards that is never empty, with its shares, its ranks, its manager and its next view.
// Rule: docs/RULES.md, "Views, shares and ranks". Words of the contracts: specs/Groups.antt, specs/Shares.antt.
ghost use Rattle.std.specs.Prelude.{◌≡◌, ◌+◌, ◌<◌, ◌≤◌, true, MatchResult};
ghost use Rattle.boards.specs.Boards.{member, size, Rank, Holder};
ghost use Rattle.views.specs.Groups.{toggle, Manager, NoView, NoChange};
ghost use Rattle.views.specs.Shares.{share, quorum, Shared};

use crate::shares::{Share, table};
use boards::Set;
use codes::Refusal;

#[derive(Clone, Copy)]
pub struct View {
    set: Set,
    ghost some: { 1 ≤ size set.bits },
}

// The set in which board c left if it was in, and joined if not; the set itself for a number above 7.
pub(crate) fn turned(set: Set, c: u8) -> Set
    ensures { result.bits ≡ toggle set.bits c }
{
    if set.has(c) {
        set.without(c)
    } else {
        set.with(c)
    }
}

// The view of these boards, or BOARD if there are none.
impl TryFrom<Set> for View {
    type Error = Refusal;

    ghost try_from_gives = { λ s r. MatchResult r (λ v. v.set ≡ s) (λ e. NoView s.bits e) };

    fn try_from(set: Set) -> Result<View, Refusal> {
        if set.is_empty() {
            Err(Refusal::Board)
        } else {
            Ok(View { set })
        }
    }
}

impl View {
    // The view of a set that is known to have a board.
    pub(crate) fn of(set: Set) -> View
        requires { 1 ≤ size set.bits }
        ensures { result.set ≡ set }
    {
        View { set }
    }

    // Its boards.
    pub fn set(&self) -> Set
        ensures { result ≡ self.now.set }
    {
        self.set
    }

    // How many members it has, 1 to 8.
    pub fn len(&self) -> u8
        ensures is { result ≡ size self.now.set.bits }
        ensures some { 1 ≤ result }
        ensures few { result ≤ 8 }
    {
        self.set.len()
    }

    // Whether the board is a member.
    pub fn has(&self, board: u8) -> bool
        ensures is { result ≡ member self.now.set.bits board }
        ensures below { result ≡ true → board < 8 }
    {
        self.set.has(board)
    }

    // The rank of a member, from 1 by rising board number; none for another board.
    pub fn rank(&self, board: u8) -> Option<u8>
        ensures { Rank self.now.set.bits board result }
    {
        self.set.rank(board)
    }

    // The member of a rank; none at rank 0 or above the number of members.
    pub fn at(&self, rank: u8) -> Option<u8>
        ensures { Holder self.now.set.bits rank result }
    {
        self.set.at(rank)
    }

    // The manager: the member of the last rank.
    pub fn manager(&self) -> u8
        ensures is { Manager self.now.set.bits result }
        ensures below { result < 8 }
    {
        self.at(self.len()).unwrap()
    }

    // How many members may be faulty, and how many make a quorum. Cast by `as`: `usize::from` is no plainer, and one more fact in the proof.
    pub fn shares(&self) -> Share
        ensures { Shared (size self.now.set.bits) result }
    {
        table()[self.len() as usize - 1]
    }

    // How many members have a correct one among them: one more than may be faulty.
    pub fn one_correct(&self) -> u8
        ensures { result ≡ share (size self.now.set.bits) + 1 }
    {
        self.shares().f + 1
    }

    // How many members make a quorum.
    pub fn quorum(&self) -> u8
        ensures { result ≡ quorum (size self.now.set.bits) }
    {
        self.shares().q
    }

    // The next view by change c: c leaves if it is a member and joins if not.
    // BOARD for a number above 7; CHANGE if c is the only member.
    pub fn changed(&self, c: u8) -> Result<View, Refusal>
        ensures { MatchResult result (λ v. (c < 8) × (v.set.bits ≡ toggle self.now.set.bits c)) (λ e. NoChange self.now.set.bits c e) }
    {
        if c > 7 {
            return Err(Refusal::Board);
        }
        View::try_from(turned(self.set, c)).map_err(|_| Refusal::Change)
    }
}
