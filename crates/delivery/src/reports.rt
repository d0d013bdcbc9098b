// What a board holds of reports, and the questions about it that every caller may ask.
// Rules: docs/RULES.md, "Reports and closings". What its values mean as plain data: specs/Plain.antt.
ghost use Rattle.std.specs.Prelude.{◌≡◌, true};
ghost use Rattle.delivery.specs.Reports.{is_view};

use crate::content::Content;
use boards::Set;
use row::state::{Count, Sent};
use views::view::View;
use wire::message::Sort;

// The board's last message, whether echoes are collected for it, and those that are, with their tags.
#[derive(Clone, Copy)]
pub(crate) struct Own {
    pub number: u8,
    pub content: Content,
    pub collecting: bool,
    pub echoes: Count,
}

// A message that was delivered: its view, sender and number, and what stood under the number.
#[derive(Clone, Copy)]
pub struct Record {
    pub view: u8,
    pub sender: u8,
    pub number: u8,
    pub content: Content,
}

impl Record {
    ghost use Rattle.delivery.specs.Effects.{no_record};
    ghost use Rattle.delivery.specs.Plain.{plain_record};

    // All zeros, which no message has.
    pub(crate) fn none() -> Record
        ensures { plain_record result ≡ no_record }
    {
        Record {
            view: 0,
            sender: 0,
            number: 0,
            content: Content::of(Sort::Report, &[]),
        }
    }
}

// What an accepted hear answers: what was sent to whom, and whether it delivered a message, whose record is then out.
#[derive(Clone, Copy)]
pub struct Heard {
    pub sent: Sent,
    pub delivered: bool,
}

// A delivery view, none where the board delivers in none; for each sender by its number the count of what was delivered in that view,
// what was echoed under the next number, and the claim of a delivered end; the board's own last message; and the record that is out.
#[derive(Clone, Copy)]
pub struct Reports {
    pub(crate) view: Option<u8>,
    pub(crate) counts: [u8; 8],
    pub(crate) echoed: [Option<Content>; 8],
    pub(crate) claims: [Option<u8>; 8],
    pub(crate) own: Option<Own>,
    pub(crate) out: Option<Record>,
    ghost placed: { is_view view ≡ true },
}

impl Reports {
    ghost use Rattle.std.specs.Prelude.{is_some};
    ghost use Rattle.delivery.specs.Reports.{count_of, started};
    ghost use Rattle.delivery.specs.Plain.{plain};

    // What a board holds at the start: members of view 1 deliver in it, other boards in no view yet.
    pub fn start(board: u8, first: &View) -> Reports
        ensures { plain result ≡ started first.now.set.bits board }
    {
        Reports::opened(first.has(board).then_some(1), None)
    }

    // The delivery view; none where the board delivers in none.
    pub fn view(&self) -> Option<u8>
        ensures { result ≡ (plain self.now).view }
    {
        self.view
    }

    // How many messages of a sender were delivered in the delivery view; 0 of a board above 7.
    pub fn count(&self, sender: u8) -> u8
        ensures { result ≡ count_of (plain self.now) sender }
    {
        self.counts.get(usize::from(sender)).copied().unwrap_or(0)
    }

    // Whether a record is out, that is, delivered and not taken yet.
    pub fn is_out(&self) -> bool
        ensures { result ≡ is_some (plain self.now).out }
    {
        self.out.is_some()
    }
}
