// A row: a state with what every row keeps, and the questions about it that every caller may ask.
// Rules: docs/RULES.md, "The row". What every row keeps: specs/Rows.antt.
ghost use Rattle.std.specs.Prelude.{◌≡◌, ◌<◌, ◌≤◌, true, false, MatchResult};
ghost use Rattle.boards.specs.Boards.{member};
ghost use Rattle.codes.specs.declared.Refusal.TheVariants.{Board};
ghost use Rattle.views.specs.Histories.{begun, members_of, Sound};
ghost use Rattle.row.specs.States.{fresh, group, latest, manager};
ghost use Rattle.row.specs.Rows.{keeps, tells, proves};

use crate::fresh::{leader, voter};
use crate::state::State;
use boards::Set;
use codes::Refusal;
use views::history::Views;
use views::view::View;

#[derive(Clone, Copy)]
pub struct Row {
    pub state: State,
    ghost seated: { state.board < 8 },
    ghost sound: { Sound state.views },
    ghost keeps: { keeps state.voter ≡ true },
    ghost tells: { tells state.leader ≡ true },
    ghost proves: { proves state.leader ≡ true },
    ghost trusts: { member state.voter.suspects.bits state.board ≡ false },
}

impl Row {
    // The row of a board in its first view, or BOARD if there is no such board.
    pub fn start(board: u8, view: View) -> Result<Row, Refusal>
        ensures { MatchResult result (λ w. (board < 8) × (w.state ≡ fresh board (begun view.set))) (λ e. (8 ≤ board) × (e ≡ Board)) }
    {
        if board > 7 {
            return Err(Refusal::Board);
        }
        Ok(Row::fresh(board, Views::new(view)))
    }

    // The row of the same board over other views: all of the old view is forgotten.
    pub fn renewed(&self, views: Views) -> Row
        ensures { result.state ≡ fresh self.now.state.board views.history }
    {
        Row::fresh(self.board(), views)
    }

    #[tactic(auto, unfolding(crate::specs::States::latest_members))]
    fn fresh(board: u8, views: Views) -> Row
        requires { board < 8 }
        ensures { result.state ≡ fresh board views.history }
    {
        let view = views.current();
        Row {
            state: State {
                board,
                views: views.history,
                voter: voter(&view),
                leader: leader(),
            },
        }
    }

    // The board that the row is of.
    pub fn board(&self) -> u8
        ensures is { result ≡ self.now.state.board }
        ensures below { result < 8 }
    {
        self.state.board
    }

    // The number of its latest view.
    pub fn latest(&self) -> u8
        ensures { result ≡ latest self.now.state }
    {
        self.state.views.latest
    }

    // Its latest view.
    #[tactic(auto, unfolding(crate::specs::States::latest_members))]
    pub fn view(&self) -> View
        ensures { result.set.bits ≡ group self.now.state }
    {
        self.views().current()
    }

    // The manager of its latest view.
    pub fn manager(&self) -> u8
        ensures is { result ≡ manager self.now.state }
        ensures below { result < 8 }
    {
        self.view().manager()
    }

    // The members of the v-th view; no boards unless v is 1 to the latest.
    pub fn members(&self, v: u8) -> Set
        ensures { result.bits ≡ members_of self.now.state.views v }
    {
        self.views().members(v)
    }

    // Its views: the state has them as plain values, so that specs and proofs compare states whole; the row knows that they are sound.
    pub fn views(&self) -> Views
        ensures { result.history ≡ self.now.state.views }
    {
        Views {
            history: self.state.views,
        }
    }
}
