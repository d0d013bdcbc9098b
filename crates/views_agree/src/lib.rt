// The boards agree on their views: the theorem over whole histories of the membership layer's calls, for any scheme.
// Told in docs/AGREEMENT.md; the statement is specs/Agreement.antt, the argument stands in proofs/.
#![tactic(auto)]

ghost use Rattle.views_agree.specs.Agreement.{ViewsAgree};
ghost use Rattle.views_agree.specs.Grounds.{SignedWasHanded, SomeChange};
ghost use Rattle.views_agree.specs.Tags.{TagsVouch};

use schemes::Scheme;

// In every history of calls that is vouched for and bounded there is one view for every number, and each was asked for.
pub fn one_view_for_every_number<S: Scheme>(scheme: &S)
    ensures { ViewsAgree S.Scheme }
{}

// What counts as signed in a step of a history was handed to the scheme in it, for the step's board.
pub fn signed_was_handed<S: Scheme>(scheme: &S)
    ensures { SignedWasHanded S.Scheme }
{}

// There is a history of this sort in which a board goes on to its second view.
pub fn some_history_changes_the_view()
    ensures { SomeChange }
{}

// Where every good tag of a correct board was signed in a step, histories are vouched for, and it stays so.
pub fn good_tags_vouch<S: Scheme>(scheme: &S)
    ensures { TagsVouch S.Scheme }
{}
