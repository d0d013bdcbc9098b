// What holds of groups and of the views of a row, whatever changes are asked for: each function promises one law.
// The statements are in specs/Groups.antt and specs/Laws.antt.
ghost use Rattle.views.specs.Groups.{ToggleTurnsOne};
ghost use Rattle.views.specs.Laws.{ViewsStay, LatestRisesByOne, ViewsHaveMembers, OneBoardChanges, NextByChange};

// A change turns its own board, and no other.
#[tactic(auto, using(crate::proofs::Groups::turns_one))]
pub fn toggle_turns_one()
    ensures { ToggleTurnsOne }
{}

// A view once defined stays as it is.
#[tactic(auto, using(crate::proofs::Calls::views_stay))]
pub fn views_stay()
    ensures { ViewsStay }
{}

// The latest view only rises, by one.
#[tactic(auto, using(crate::proofs::Calls::rises_by_one))]
pub fn latest_rises_by_one()
    ensures { LatestRisesByOne }
{}

// No view is ever without a member.
#[tactic(auto, using(crate::proofs::Calls::views_have_members))]
pub fn views_have_members()
    ensures { ViewsHaveMembers }
{}

// From each view to the next one board changed.
#[tactic(auto, using(crate::proofs::Calls::one_board_changes))]
pub fn one_board_changes()
    ensures { OneBoardChanges }
{}

// The view that a call defines has the members of the latest but for its change.
#[tactic(auto, using(crate::proofs::Calls::next_by_change))]
pub fn next_by_change()
    ensures { NextByChange }
{}
