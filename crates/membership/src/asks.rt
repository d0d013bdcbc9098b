// What an ask does that is not refused: a notify to the manager, or a deputy message to the highest rank that is not suspect.
// Rules: docs/RULES.md, "Changing the group". Formal text: specs of crate row, Effects.antt.
ghost use Rattle.std.specs.Prelude.{◌≡◌, ◌<◌, true, false, ◌≢◌};
ghost use Rattle.boards.specs.Boards.{member};
ghost use Rattle.row.specs.States.{group, inside};
ghost use Rattle.row.specs.Effects.{asked_out, deputises, notifies, trusted};
ghost use Rattle.row.specs.Calls.{Done};
ghost use Rattle.sending.specs.Sends.{Able, Did};

use boards::Set;
use row::row::Row;
use row::state::Sent;
use schemes::Scheme;
use seats::insert;
use sending::say;
use words::statement::{Claim, Statement};

// The highest member that is not suspect: there is one, since a row never suspects its own board.
fn trusted(row: &Row, suspects: Set) -> u8
    requires inside { inside row.now.state ≡ true }
    requires trusts { member suspects.bits row.now.state.board ≡ false }
    ensures { result ≡ trusted row.now.state suspects.bits }
{
    let view = row.view();
    view.set().minus(suspects).boards().next_back().unwrap()
}

// A notify to the manager; it is all that an ask for a board to join does.
pub(crate) fn notify<S: Scheme>(row: &Row, scheme: &mut S, change: u8, out: &mut [u8]) -> Sent
    requires able { Able S.Scheme scheme.old out.old }
    requires board { change < 8 }
    ensures { Done S.Scheme row.now.state.board (notifies row.now.state change) out.old scheme.old result scheme.new out.new }
{
    let statement = Statement {
        view: row.latest(),
        claim: Claim::Notify { change },
    };
    say(
        scheme,
        row.board(),
        statement,
        Set::only(row.manager()),
        out,
    )
    .unwrap()
}

// A deputy message to a member, which names its rank.
fn deputise<S: Scheme>(row: &Row, scheme: &mut S, board: u8, out: &mut [u8]) -> Sent
    requires able { Able S.Scheme scheme.old out.old }
    requires member { member (group row.now.state) board ≡ true }
    ensures { Done S.Scheme row.now.state.board (deputises row.now.state board) out.old scheme.old result scheme.new out.new }
{
    let rank = row.view().rank(board).unwrap();
    let statement = Statement {
        view: row.latest(),
        claim: Claim::Deputy { rank },
    };
    say(scheme, row.board(), statement, Set::only(board), out).unwrap()
}

// An ask for a member to leave: it is suspect from now on.
pub(crate) fn asked_out<S: Scheme>(row: &mut Row, scheme: &mut S, c: u8, out: &mut [u8]) -> Sent
    requires able { Able S.Scheme scheme.old out.old }
    requires asked { (c < 8) × (inside row.old.state ≡ true) × (c ≢ row.old.state.board) }
    ensures { Did S.Scheme (asked_out row.old.state c) row.old.state scheme.old out.old result row.new.state scheme.new out.new }
{
    let suspects = insert(row.state.voter.suspects, c);
    let sent = if suspects.has(row.manager()) {
        let board = trusted(row, suspects);
        deputise(row, scheme, board, out)
    } else {
        notify(row, scheme, c, out)
    };
    row.state.voter.suspects = suspects;
    sent
}
