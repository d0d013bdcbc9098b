// Changing: what a row does with a change, by which it comes to the next view, and to whom a member passes it on.
// Rules: docs/RULES.md, "Changing the group", kind 6. Formal text: specs of crate row, Effects.antt.
#![tactic(auto)]

ghost use Rattle.std.specs.Prelude.{◌≡◌, ◌+◌, ◌≤◌, length, true, false};
ghost use Rattle.boards.specs.Boards.{place, size};
ghost use Rattle.views.specs.Histories.{grown, Open};
ghost use Rattle.wire.specs.Messages.{meaning};
ghost use Rattle.wire.specs.Format.{Formed, form};
ghost use Rattle.row.specs.declared.state.State.{State};
ghost use Rattle.row.specs.States.{fresh, group, inside, set_of};
ghost use Rattle.row.specs.Effects.{passed_on};
ghost use Rattle.row.specs.Calls.{Posted, sent};
ghost use Rattle.sending.specs.Sends.{HeardIf};
ghost use Rattle.changing.specs.Changes.{Hearers, is_change};

use admission::judge;
use boards::Set;
use codes::Refusal;
use row::row::Row;
use row::state::Sent;
use schemes::Scheme;
use seats::insert;
use sending::{NOTHING, post};
use views::view::View;
use wire::message::{Body, Message};

// Whether a member passes a change on to a board: to one of the f + 1 ranks after its own, counted round, and to every board outside.
// Its own rank is 0 ranks after itself, so it is left out.
fn is_hearer(view: &View, own: u8, board: u8) -> bool
    requires { own ≤ size view.now.set.bits }
    ensures { (s : State) → group s ≡ view.now.set.bits → place (group s) s.board + 1 ≡ own → result ≡ passed_on s board }
{
    match view.rank(board) {
        Some(rank) => {
            let after = (rank + view.len() - own) % view.len();
            (1..=view.one_correct()).contains(&after)
        }
        None => true,
    }
}

// To whom the row passes a change on; none if it is no member of the view that ends.
fn hearers(row: &Row) -> Option<Set>
    ensures { Hearers row.now.state result }
{
    let view = row.view();
    let own = view.rank(row.board())?;
    // A `for` with an `if`: `insert` speaks of the byte, and its laws build the set board by board; a chain would add one more list between.
    let mut to = Set::EMPTY;
    for board in 0..8 {
        if is_hearer(&view, own, board) {
            to = insert(to, board);
        }
    }
    Some(to)
}

// Passes a change on as it was heard: by a member of the view that ends. An outsider passes nothing.
fn pass_on(row: &Row, m: &Message<'_>, out: &mut [u8]) -> Sent
    requires formed { Formed (meaning m.now) }
    requires room { length (form (meaning m.now)) ≤ length out.old }
    ensures member { inside row.now.state ≡ true → Posted (set_of (passed_on row.now.state) 8) (meaning m.now) out.old result out.new }
    ensures outsider { inside row.now.state ≡ false → (result ≡ sent 0 0) × (out.new ≡ out.old) }
{
    match hearers(row) {
        Some(to) => post(m, to, out).unwrap(),
        None => NOTHING,
    }
}

// The row in the view that a change leads to: all of the old view is forgotten.
fn next(row: &Row, change: u8) -> Row
    requires { Open row.now.state.views change }
    ensures { result.state ≡ fresh row.now.state.board (grown row.now.state.views change) }
{
    let mut views = row.views();
    views.define(change).unwrap();
    row.renewed(views)
}

// Hears a change; any other message, and a value that no bytes spell, has no answer here.
// So an `Option` of the `Result`: no answer is neither a reason against the message nor something sent.
pub fn hear<S: Scheme>(
    row: &mut Row,
    scheme: &S,
    m: &Message<'_>,
    out: &mut [u8],
) -> Option<Result<Sent, Refusal>>
    ensures { HeardIf S.Scheme is_change row.old.state scheme.now (meaning m.now) out.old result row.new.state scheme.now out.new }
{
    // An `else`: a message of another kind is no error that `?` could pass on.
    let Body::Change { change, .. } = m.body else {
        return None;
    };
    // A match, not `Result::map`: what a closure that it does not call leaves of its captures is not known.
    match judge(row, scheme, m, out.len())? {
        // Passed on first: the old view says to whom, and the next row has forgotten it.
        Ok(()) => {
            let sent = pass_on(row, m, out);
            *row = next(row, change);
            Some(Ok(sent))
        }
        Err(why) => Some(Err(why)),
    }
}
