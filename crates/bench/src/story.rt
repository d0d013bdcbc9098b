// The story: five boards of which one is faulty, a change led by the manager, and a proposal that reaches one board and that a deputy finishes.
// Each board writes on its own page; to hear from a board is to read the frame that it wrote last.
ghost use Rattle.std.specs.Prelude.{◌≡◌, Bool, true, ◌&&◌, ◌||◌};
ghost use Rattle.bench.specs.Story.{Story};
ghost use Rattle.bench.specs.Ends.{few_faulty, few_in_all, arrived, ends};

use crate::desk::Bench;
use boards::Set;
use row::row::Row;
use schemes::register::Entry as Blank;
use views::view::View;
use wire::message::Entry;
use words::statement::{Claim, Statement};

// One call at a board, or a statement that a faulty board signs.
#[derive(Clone, Copy)]
pub enum Move {
    AskOut { at: u8, change: u8 },
    AskIn { at: u8, change: u8 },
    Hear { at: u8, from: u8 },
    Sign { board: u8, said: Statement<'static> },
}

pub const STORY: [Move; 67] = [
    // View 1 has boards 0 to 4; board 4 is the manager. Boards 0 and 2 ask board 3 out: two of five, so the manager suggests it.
    Move::AskOut { at: 0, change: 3 },
    Move::Hear { at: 4, from: 0 },
    Move::AskOut { at: 2, change: 3 },
    Move::Hear { at: 4, from: 2 },
    // Acks of three boards and of the faulty one: the manager proposes.
    Move::Hear { at: 0, from: 4 },
    Move::Hear { at: 2, from: 4 },
    Move::Hear { at: 4, from: 4 },
    Move::Hear { at: 4, from: 4 },
    Move::Hear { at: 4, from: 0 },
    Move::Hear { at: 4, from: 2 },
    Move::Sign {
        board: 1,
        said: Statement {
            view: 1,
            claim: Claim::Ack { rank: 5, change: 3 },
        },
    },
    Move::Hear { at: 4, from: 1 },
    // Readies of the same boards: the manager makes the change, and all rows but the faulty board's hear it, those of boards 5, 6 and 7 outside too.
    Move::Hear { at: 0, from: 4 },
    Move::Hear { at: 2, from: 4 },
    Move::Hear { at: 4, from: 4 },
    Move::Hear { at: 4, from: 4 },
    Move::Hear { at: 4, from: 0 },
    Move::Hear { at: 4, from: 2 },
    Move::Sign {
        board: 1,
        said: Statement {
            view: 1,
            claim: Claim::Ready { rank: 5, change: 3 },
        },
    },
    Move::Hear { at: 4, from: 1 },
    Move::Hear { at: 0, from: 4 },
    Move::Hear { at: 2, from: 4 },
    Move::Hear { at: 3, from: 4 },
    Move::Hear { at: 5, from: 4 },
    Move::Hear { at: 6, from: 4 },
    Move::Hear { at: 7, from: 4 },
    Move::Hear { at: 4, from: 4 },
    // View 2 has boards 0, 1, 2 and 4, with ranks 1 to 4. Boards 0 and 2 ask board 5 in; the manager proposes it, but only board 0 hears of it.
    Move::AskIn { at: 0, change: 5 },
    Move::Hear { at: 4, from: 0 },
    Move::AskIn { at: 2, change: 5 },
    Move::Hear { at: 4, from: 2 },
    Move::Hear { at: 0, from: 4 },
    Move::Hear { at: 2, from: 4 },
    Move::Hear { at: 4, from: 4 },
    Move::Hear { at: 4, from: 4 },
    Move::Hear { at: 4, from: 0 },
    Move::Hear { at: 4, from: 2 },
    Move::Hear { at: 0, from: 4 },
    // Boards 0 and 2 ask the silent manager out: board 2, of rank 3, is deputy, and asks what was readied.
    Move::AskOut { at: 0, change: 4 },
    Move::Hear { at: 2, from: 0 },
    Move::AskOut { at: 2, change: 4 },
    Move::Hear { at: 2, from: 2 },
    // Board 0 tells of the proposal, with its acks; board 2 and the faulty board tell of none. So the deputy asks for acks of that change.
    Move::Hear { at: 0, from: 2 },
    Move::Hear { at: 2, from: 2 },
    Move::Hear { at: 2, from: 2 },
    Move::Hear { at: 2, from: 0 },
    Move::Sign {
        board: 1,
        said: Statement {
            view: 2,
            claim: Claim::Last {
                rank: 3,
                entry: Entry::NONE,
            },
        },
    },
    Move::Hear { at: 2, from: 1 },
    // Acks, proposal and readies of rank 3; the change that board 0 kept is finished.
    Move::Hear { at: 0, from: 2 },
    Move::Hear { at: 2, from: 2 },
    Move::Hear { at: 2, from: 2 },
    Move::Hear { at: 2, from: 0 },
    Move::Sign {
        board: 1,
        said: Statement {
            view: 2,
            claim: Claim::Ack { rank: 3, change: 5 },
        },
    },
    Move::Hear { at: 2, from: 1 },
    Move::Hear { at: 0, from: 2 },
    Move::Hear { at: 2, from: 2 },
    Move::Hear { at: 2, from: 2 },
    Move::Hear { at: 2, from: 0 },
    Move::Sign {
        board: 1,
        said: Statement {
            view: 2,
            claim: Claim::Ready { rank: 3, change: 5 },
        },
    },
    Move::Hear { at: 2, from: 1 },
    Move::Hear { at: 0, from: 2 },
    Move::Hear { at: 3, from: 2 },
    Move::Hear { at: 4, from: 2 },
    Move::Hear { at: 5, from: 2 },
    Move::Hear { at: 6, from: 2 },
    Move::Hear { at: 7, from: 2 },
    Move::Hear { at: 2, from: 2 },
];

// The boards of view 1, the faulty one, and the groups of views 2 and 3.
const FIRST: Set = Set { bits: 0xF8 };

const FAULTY: Set = Set { bits: 0x40 };

const SECOND: Set = Set { bits: 0xE8 };

const THIRD: Set = Set { bits: 0xEC };

// Whether a view has no more faulty members than its share; the set without boards has none.
fn few_faulty(view: Set, faulty: Set) -> bool
    ensures { result ≡ few_faulty faulty.bits view.bits }
{
    let Ok(group) = View::try_from(view) else {
        return true;
    };
    view.minus(view.minus(faulty)).len() <= group.shares().f
}

// Whether each view of a row has no more.
fn few_in_all(row: &Row, faulty: Set) -> bool
    ensures { result ≡ few_in_all faulty.bits row.now.state.views }
{
    (0..65).all(|x| few_faulty(row.members(x), faulty))
}

// Whether a row came to view 3 by the groups of the story.
fn arrived(row: &Row) -> bool
    ensures { result ≡ arrived row.now.state }
{
    row.latest() == 3 && row.members(2) == SECOND && row.members(3) == THIRD
}

// Whether a row ended as it should: with few faulty members in its views, and, unless its board is faulty, in view 3.
fn ends(row: &Row) -> bool
    ensures { result ≡ ends row.now.state }
{
    few_in_all(row, FAULTY) && (FAULTY.has(row.board()) || arrived(row))
}

// Plays moves over a register in this memory, and answers whether all could be made and all rows ended as those of the story should.
pub fn story(moves: &[Move], entries: &mut [Blank]) -> bool
    ensures { result ≡ true → Story moves.now }
{
    let Ok(first) = View::try_from(FIRST) else {
        return false;
    };
    let mut bench = Bench::start(first, FAULTY, entries);
    bench.played(moves).is_some() && bench.desks.iter().all(|desk| ends(&desk.row))
}

#[cfg(test)]
mod tests {
    use super::{Blank, Claim, Move, STORY, Statement, story};

    // The story can be told, and ends as it should.
    #[test]
    fn story_is_told(rt: HostRuntime) {
        let mut entries = [Blank::blank(); 64];
        assert!(rt; story(&STORY, &mut entries));
    }

    // Without its last move it does not: one row is still in view 2.
    #[test]
    fn story_without_its_end_is_not(rt: HostRuntime) {
        let mut entries = [Blank::blank(); 64];
        assert!(rt; !story(&STORY[..66], &mut entries));
    }

    // A board that is not faulty signs by its own calls alone.
    #[test]
    fn board_0_is_not_signed_for(rt: HostRuntime) {
        let mut entries = [Blank::blank(); 64];
        let said = Statement {
            view: 1,
            claim: Claim::Notify { change: 3 },
        };
        assert!(rt; !story(&[Move::Sign { board: 0, said }], &mut entries));
    }
}
