// The boards agree on their reports: the theorem over whole histories of the membership layer's and the delivery layer's calls, for any scheme.
// Told in docs/AGREEMENT.md; the statement is specs/Agreement.antt, the argument stands in proofs/.
#![tactic(auto)]

ghost use Rattle.reports_agree.specs.Agreement.{ReportsAgree};
ghost use Rattle.reports_agree.specs.Grounds.{SomeClosing};
ghost use Rattle.reports_agree.specs.OneBoard.{OneBoardHolds};
ghost use Rattle.reports_agree.specs.Tags.{TagsVouch};

use schemes::Scheme;

// In every history of calls of both layers that is vouched for and bounded, the boards agree on their views and on their reports.
pub fn reports_agree<S: Scheme>(scheme: &S)
    ensures { ReportsAgree S.Scheme }
{}

// In every history, whatever was heard, each correct board's counts are what it delivered, an end is the last, its delivery view only rises, and its own end cuts off the board that is left out.
pub fn one_board<S: Scheme>(scheme: &S)
    ensures { OneBoardHolds S.Scheme }
{}

// Where every good tag of a correct board was signed in a step, histories of both layers are vouched for, and it stays so.
pub fn good_tags_vouch<S: Scheme>(scheme: &S)
    ensures { TagsVouch S.Scheme }
{}

// There is a history of this sort: a faulty board tells two boards different payloads and leaves, the ends of these two have different claims, and both close the view.
pub fn some_history_closes_a_view()
    ensures { SomeClosing }
{}
