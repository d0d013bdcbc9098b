// What follows from the calls' promises at one row: laws, for any scheme, and worked examples, computed from the definitions that the promises use.
// Told in docs/RULES.md, "The row", "Changing the group" and "Worked examples"; the statements are specs/Laws.antt and specs/Examples.antt.
#![tactic(auto)]

ghost use Rattle.std.specs.Prelude.{◌≡◌, ℕ, true};
ghost use Rattle.boards.specs.Boards.{member};
ghost use Rattle.row_laws.specs.Examples.{five, Examples};
ghost use Rattle.row_laws.specs.Laws.{FloorFalls, LatestRises, NotTwice, FullCount};

use schemes::Scheme;

// In every call that leaves the latest view, the floor stays or falls.
pub fn floor_falls<S: Scheme>(scheme: &S)
    ensures { FloorFalls S.Scheme }
{}

// In every call the latest view stays or rises by one, and no view so far changes.
pub fn latest_rises<S: Scheme>(scheme: &S)
    ensures { LatestRises S.Scheme }
{}

// No step of a view is answered twice, however many calls later.
pub fn not_twice<S: Scheme>(scheme: &S)
    ensures { NotTwice S.Scheme }
{}

// After a full count no other message of its kind is taken in its view.
pub fn full_count<S: Scheme>(scheme: &S)
    ensures { FullCount S.Scheme }
{}

// The examples hold at the row of every member of the view of five.
pub fn examples()
    ensures { (board : ℕ) → member five board ≡ true → Examples board }
{}
