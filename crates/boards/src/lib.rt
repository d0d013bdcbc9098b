// Sets of the eight boards in one byte, the top bit for board 0: members, size, ranks and walks by rising board number.
// Every call takes any board number; one above 7 is in no set. Words of the contracts: specs/Boards.antt.
#![tactic(auto)]

ghost use Rattle.std.specs.Prelude.{◌≡◌, ◌<◌, ◌≤◌, true, Decides, ◌==◌};
ghost use Rattle.std.specs.Iterator.{at_most};
ghost use Rattle.boards.specs.Boards.{member, only, size, Within, With, Without, Minus, Rank, Holder, First, Last, QuorumsMeet, OneIsCorrect};

mod bits;

#[derive(Clone, Copy, Debug, PartialEq, Eq)]
pub struct Set {
    pub bits: u8,
}

impl Set {
    pub const EMPTY: Set = Set { bits: 0 };

    pub const ALL: Set = Set { bits: 255 };

    // Just this board; no board for a number above 7.
    pub fn only(board: u8) -> Set
        ensures { result.bits ≡ only board }
    {
        Set {
            bits: bits::bit(board),
        }
    }

    // Whether the board is in the set.
    pub fn has(self, board: u8) -> bool
        ensures is { result ≡ member self.bits board }
        ensures below { result ≡ true → board < 8 }
    {
        bits::is_set(self.bits, board)
    }

    // How many boards the set has.
    pub fn len(self) -> u8
        ensures is { result ≡ size self.bits }
        ensures few { result ≤ 8 }
    {
        bits::count(self.bits)
    }

    // Whether the set has no board.
    pub fn is_empty(self) -> bool
        ensures { result ≡ (size self.bits == 0) }
    {
        self.len() == 0
    }

    // The set and this board; the set itself for a number above 7.
    pub fn with(self, board: u8) -> Set
        ensures each { With self.bits board result.bits }
        ensures above { 8 ≤ board → result.bits ≡ self.bits }
    {
        Set {
            bits: bits::either(self.bits, bits::bit(board)),
        }
    }

    // The set but for this board; the set itself for a number above 7.
    pub fn without(self, board: u8) -> Set
        ensures each { Without self.bits board result.bits }
        ensures above { 8 ≤ board → result.bits ≡ self.bits }
    {
        Set {
            bits: bits::rest(self.bits, bits::bit(board)),
        }
    }

    // The boards of this set that are not in the other.
    pub fn minus(self, other: Set) -> Set
        ensures { Minus self.bits other.bits result.bits }
    {
        Set {
            bits: bits::rest(self.bits, other.bits),
        }
    }

    // Whether each board of this set is in the other.
    pub fn within(self, other: Set) -> bool
        ensures { Decides result (Within self.bits other.bits) }
    {
        bits::inside(self.bits, other.bits)
    }

    // The place of a board in the set, from 1 by rising board number; none for a board that is not in it.
    pub fn rank(self, board: u8) -> Option<u8>
        ensures { Rank self.bits board result }
    {
        self.has(board).then(|| bits::before(self.bits, board) + 1)
    }

    // The board of a rank; none at rank 0 or above the size.
    pub fn at(self, rank: u8) -> Option<u8>
        ensures { Holder self.bits rank result }
    {
        (0..8).find(|board| self.rank(*board) == Some(rank))
    }

    // The boards of the set, by rising number.
    pub fn boards(self) -> Boards
        ensures { result.left ≡ self }
    {
        Boards { left: self }
    }
}

// A walk over the boards of a set, by rising number from the front and by falling number from the back.
#[derive(Clone, Debug, Drop)]
pub struct Boards {
    left: Set,
}

impl Iterator for Boards {
    type Item = u8;

    ghost next_gives = { λ s r t. First s.left.bits r t.left.bits };

    ghost remaining = { λ it. at_most (size it.left.bits) };

    // The lowest board that is left, which has rank 1.
    #[tactic(auto, using(crate::proofs::Lists::boards_none, crate::proofs::Lists::boards_first, crate::proofs::Sets::size_without_member))]
    fn next(&mut self) -> Option<u8> {
        let board = self.left.at(1)?;
        self.left = self.left.without(board);
        Some(board)
    }
}

impl DoubleEndedIterator for Boards {
    ghost next_back_gives = { λ s r t. Last s.left.bits r t.left.bits };

    // The highest board that is left, which has the highest rank.
    #[tactic(auto, using(crate::proofs::Lists::boards_none, crate::proofs::Lists::boards_last, crate::proofs::Sets::size_without_member))]
    fn next_back(&mut self) -> Option<u8> {
        let board = self.left.at(self.left.len())?;
        self.left = self.left.without(board);
        Some(board)
    }
}

// Two quorums meet in a correct board.
pub fn quorums_meet()
    ensures { QuorumsMeet }
{}

// More boards than can be faulty have a correct one among them.
pub fn one_is_correct()
    ensures { OneIsCorrect }
{}
