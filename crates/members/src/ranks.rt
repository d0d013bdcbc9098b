// Questions about sets and ranks that the tests share.
// Words: specs of crate row, States.antt and Refusals.antt.
ghost use Rattle.std.specs.Prelude.{◌≡◌};
ghost use Rattle.row.specs.States.{inside};
ghost use Rattle.row.specs.Refusals.{strays, empties};

use boards::Set;
use row::row::Row;
use views::view::View;

// Whether a set has a board outside the view.
pub(crate) fn strays(set: Set, view: &View) -> bool
    ensures { result ≡ strays set.bits view.now.set.bits }
{
    !set.within(view.set())
}

// Whether the row's board is a member of the latest view.
pub fn inside(row: &Row) -> bool
    ensures { result ≡ inside row.now.state }
{
    row.view().has(row.board())
}

// Whether the change would remove the only member.
pub(crate) fn empties(row: &Row, c: u8) -> bool
    ensures { result ≡ empties row.now.state c }
{
    let view = row.view();
    view.len() == 1 && view.has(c)
}
