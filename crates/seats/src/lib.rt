// Who sits where in a row's latest view: the member of a rank, and the board that an earlier rank calls for; and a set with one board more.
// Words of the contracts: specs of crate row, States.antt and Effects.antt.
#![tactic(auto)]

ghost use Rattle.std.specs.Prelude.{◌≡◌, ◌<◌};
ghost use Rattle.boards.specs.Boards.{only};
ghost use Rattle.row.specs.States.{group, insert, seat};
ghost use Rattle.row.specs.Effects.{called_for};

use boards::Set;
use row::row::Row;
use wire::message::Entry;

// The member of a rank, alone; no board for a rank that nobody has. `Set::EMPTY`, and no `Option`: what is sent goes to a set by the rules,
// and for a rank past the last it is sent to nobody.
pub fn seat(row: &Row, rank: u8) -> Set
    ensures { result.bits ≡ only (seat (group row.now.state) rank) }
{
    row.view().at(rank).map_or(Set::EMPTY, Set::only)
}

// The change that the lowest earlier rank calls for: its own, or the manager where there is none.
pub fn called_for(row: &Row, low: Entry) -> u8
    ensures is { result ≡ called_for row.now.state low }
    ensures below { low.change < 8 → result < 8 }
{
    if low.earlier == 0 {
        row.manager()
    } else {
        low.change
    }
}

// A set with one board more. Not `Set::with` at each place, which is no plainer: that says of each board whether it is in the set,
// the rules speak of the byte, and this one place turns the one into the other; a clause on `with` would open what crate `boards` hides.
pub fn insert(set: Set, board: u8) -> Set
    ensures { result.bits ≡ insert set.bits board }
{
    set.with(board)
}
