// What stands on the bench: for each board its row, and the page with the frame that it wrote last; one register for all.
// A move of the bench is one call at one row, or a faulty board's own signature.
ghost use Rattle.std.specs.Prelude.{◌≡◌, ℕ, ◌<◌, ⊤, List, replicate, false, MatchOption};
ghost use Rattle.row.specs.States.{fresh};
ghost use Rattle.views.specs.Histories.{begun};
ghost use Rattle.schemes.specs.Registers.{good_in};
ghost use Rattle.views_agree.specs.Agreement.{Outside, Started, row_of};
ghost use Rattle.bench.specs.Story.{blank, frame, page_of, turned};
ghost use Rattle.bench.specs.Moves.{states, pages, Put};

use boards::Set;
use codes::Refusal;
use row::row::Row;
use row::state::{ENOUGH, Sent};
use schemes::register::{Entry, Register};
use views::view::View;

// The bytes that a board is offered, and how many of them its last frame has.
#[derive(Clone, Copy)]
pub struct Page {
    pub bytes: [u8; ENOUGH],
    pub length: usize,
}

impl Page {
    // The frame that was written last.
    pub(crate) fn frame(&self) -> Option<&[u8]>
        ensures { MatchOption result ⊤ (λ r. r.now ≡ frame self.now) }
    {
        self.bytes.get(..self.length)
    }

    // The page after a call: who sends nothing leaves the frame as it was.
    pub(crate) fn after(self, answer: Result<Sent, Refusal>) -> Page
        ensures { result ≡ turned self.bytes answer self }
    {
        match answer {
            Ok(sent) if sent.length > 0 => Page {
                length: sent.length,
                ..self
            },
            _ => self,
        }
    }
}

#[derive(Clone, Copy)]
pub struct Desk {
    pub row: Row,
    pub page: Page,
}

impl Desk {
    // The desk of a board in its first view.
    pub(crate) fn start(board: u8, first: View) -> Desk
        requires { board < 8 }
        ensures state { result.row.state ≡ fresh board (begun first.set) }
        ensures page { result.page ≡ blank }
    {
        Desk {
            row: Row::start(board, first).unwrap(),
            page: Page {
                bytes: [0; ENOUGH],
                length: 0,
            },
        }
    }
}

#[derive(Drop)]
pub struct Bench<'a> {
    pub faulty: Set,
    pub desks: [Desk; 8],
    pub register: Register<'a>,
}

impl<'a> Bench<'a> {
    // All boards in the same first view, and nothing signed.
    pub(crate) fn start(first: View, faulty: Set, entries: &'a mut [Entry]) -> Bench<'a>
        ensures rows { Started first.set.bits (states result.desks) }
        ensures pages { pages result.desks ≡ replicate 8 blank }
        ensures faulty { result.faulty ≡ faulty }
        ensures empty { (b : ℕ) (w : List ℕ) (t : ℕ) → good_in result.register b w t ≡ false }
    {
        Bench {
            faulty,
            desks: [
                Desk::start(0, first),
                Desk::start(1, first),
                Desk::start(2, first),
                Desk::start(3, first),
                Desk::start(4, first),
                Desk::start(5, first),
                Desk::start(6, first),
                Desk::start(7, first),
            ],
            register: Register::new(entries),
        }
    }

    // The desk of a board that is not faulty.
    pub(crate) fn desk(&self, board: u8) -> Option<Desk>
        ensures { MatchOption result ⊤ (λ d. Outside self.now.faulty.bits board × (d.row.state ≡ row_of (states self.now.desks) board) × (d.page ≡ page_of (pages self.now.desks) board)) }
    {
        if self.faulty.has(board) {
            return None;
        }
        self.desks.get(usize::from(board)).copied()
    }

    // Puts down what a call left at a desk.
    pub(crate) fn put(&mut self, board: u8, row: Row, page: Page)
        requires { board < 8 }
        ensures { Put self.old board row.state page self.new }
    {
        self.desks[usize::from(board)] = Desk { row, page };
    }
}
