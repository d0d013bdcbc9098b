// How a delivery view ends: whom the next view leaves out, where the cut is, whether the view is closed, and to which view a board goes on.
// Rules: docs/RULES.md, "Reports and closings". Words of the contracts: specs/Endings.antt.
ghost use Rattle.std.specs.Prelude.{◌≡◌, ◌<◌, ◌≤◌, ◌+◌, ◌-◌, is_some, option_map, true};
ghost use Rattle.std.specs.Option.{unwrap_or};
ghost use Rattle.boards.specs.Boards.{any};
ghost use Rattle.delivery.specs.Reports.{claim_of, is_view, opened};
ghost use Rattle.delivery.specs.Endings.{closed, cut, done, ends_in, may_stay, is_left_out, left_out, lowest_from, settled, stays};
ghost use Rattle.delivery.specs.Plain.{plain, plain_record};

use crate::reports::{Record, Reports};
use row::row::Row;
use views::history::Views;

// Whether a board is in view y and in the next one.
fn stays(views: &Views, y: u8, board: u8) -> bool
    requires { y ≤ 64 }
    ensures { result ≡ stays views.now.history y board }
{
    views.members(y).has(board) && views.members(y + 1).has(board)
}

// The board of view y that the next view leaves out, if there is one.
#[tactic(auto, using(crate::proofs::Telling::highest_more, boards::proofs::Chosen::any_first, boards::proofs::Chosen::any_next, crate::proofs::Telling::none_yet))]
pub(crate) fn left_out(views: &Views, y: u8) -> Option<u8>
    requires { y ≤ 64 }
    ensures is { unwrap_or result 8 ≡ left_out views.now.history y }
    ensures some { is_some result ≡ any (is_left_out views.now.history y) 8 }
{
    let mut gone = None;
    for s in 0..8u8 {
        if y < views.latest() && views.members(y).has(s) && !views.members(y + 1).has(s) {
            gone = Some(s);
        }
    }
    gone
}

// A view in which a board may stay: it has the board, and so has the next one, if there is one.
fn may_stay(views: &Views, board: u8, v: u8) -> bool
    requires { v < 255 }
    ensures { result ≡ may_stay views.now.history board v }
{
    views.members(v).has(board) && (v == views.latest() || views.members(v + 1).has(board))
}

// The lowest view from one on in which a board may stay.
#[tactic(auto, using(crate::proofs::Telling::lowest_here, crate::proofs::Telling::lowest_on, crate::proofs::Telling::lowest_over))]
fn lowest(views: &Views, board: u8, from: u8) -> Option<u8>
    requires { (1 ≤ from) × (from ≤ 65) }
    ensures is { result ≡ lowest_from (may_stay views.now.history board) from (views.now.history.latest + 1 - from) }
    ensures placed { is_view result ≡ true }
{
    let latest = views.latest();
    let mut v = from;
    while v <= latest {
        if may_stay(views, board, v) {
            return Some(v);
        }
        v += 1;
    }
    None
}

impl Reports {
    // The claim of a board's delivered end, if it has ended.
    pub(crate) fn claim(&self, board: u8) -> Option<u8>
        ensures { result ≡ claim_of (plain self.now) board }
    {
        self.claims.get(usize::from(board)).copied().flatten()
    }

    // Whether the ends of all boards that stay are delivered.
    #[tactic(auto, using(boards::proofs::Chosen::every_next, crate::proofs::Telling::every_none))]
    pub(crate) fn has_ends(&self, views: &Views, y: u8) -> bool
        requires { y ≤ 64 }
        ensures { result ≡ ends_in views.now.history y (plain self.now) }
    {
        let mut all = true;
        for s in 0..8u8 {
            all = all && (!stays(views, y, s) || self.claim(s).is_some());
        }
        all
    }

    // The largest claim of the ends of boards that stay.
    #[tactic(auto, using(crate::proofs::Telling::largest_more, crate::proofs::Telling::largest_none))]
    pub(crate) fn cut(&self, views: &Views, y: u8) -> u8
        requires { y ≤ 64 }
        ensures { result ≡ cut views.now.history y (plain self.now) }
    {
        let mut top = 0;
        for s in 0..8u8 {
            let claim = if stays(views, y, s) {
                self.claim(s).unwrap_or(0)
            } else {
                0
            };
            top = top.max(claim);
        }
        top
    }

    // Whether view y is closed: all ends are in, and of the board that is left out, if one is, as many messages are delivered as the cut says.
    fn closed(&self, views: &Views, y: u8) -> bool
        requires { y ≤ 64 }
        ensures { result ≡ closed views.now.history y (plain self.now) }
    {
        self.has_ends(views, y)
            && match left_out(views, y) {
                None => true,
                Some(r) => self.count(r) == self.cut(views, y),
            }
    }

    // Whether a board is done with view y: the next one is there without it, or y is closed.
    fn done(&self, views: &Views, board: u8, y: u8) -> bool
        requires { y ≤ 64 }
        ensures { result ≡ done views.now.history board y (plain self.now) }
    {
        y < views.latest() && (!views.members(y + 1).has(board) || self.closed(views, y))
    }

    // In a new delivery view nothing is counted, echoed, ended or sent; a record that is out stays.
    pub(crate) fn opened(view: Option<u8>, out: Option<Record>) -> Reports
        requires { is_view view ≡ true }
        ensures { plain result ≡ opened view (option_map plain_record out) }
    {
        Reports {
            view,
            counts: [0; 8],
            echoed: [None; 8],
            claims: [None; 8],
            own: None,
            out,
        }
    }

    // Goes on, where the board is done with its delivery view, to the lowest later view in which it may stay; a board without a view enters the latest, where that has it.
    pub(crate) fn settle(&mut self, row: &Row)
        ensures { plain self.new ≡ settled row.now.state.views row.now.state.board (plain self.old) }
    {
        let views = row.views();
        let latest = views.latest();
        match self.view {
            None => if views.members(latest).has(row.board()) {
                *self = Reports::opened(Some(latest), self.out);
            },
            Some(y) => if self.done(&views, row.board(), y) {
                *self = Reports::opened(lowest(&views, row.board(), y + 1), self.out);
            },
        }
    }
}
