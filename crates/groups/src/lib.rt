// A group's views as answers of the script: the group that a tester names, and then, change by change, each next one.
// Language: docs/SCRIPT.md, "views". What is answered: specs/Groups.antt. The views themselves are those of crate views.
#![tactic(auto)]

ghost use Rattle.std.specs.Prelude.{◌≡◌, IfOk};
ghost use Rattle.groups.specs.Groups.{board_of, Begins, Latest, Changes, Answers};
ghost use Rattle.groups.specs.Examples.{Examples};

use boards::Set;
use codes::Refusal;
use script::answer::{Answer, Answered, answer_line};
use script::group::Group;
use std::alloc::AllocError;
use views::history::Views;
use views::view::View;

// The number that a digit stands for; 0 for a byte below the digits.
fn board(digit: u8) -> u8
    ensures { result ≡ board_of digit }
{
    digit.saturating_sub(b'0')
}

// The view of the boards named, or BOARD if there is none or a digit names no board.
fn first(members: &[u8]) -> Result<View, Refusal>
    ensures { Begins members.now result }
{
    let mut set = Set::EMPTY;
    for digit in members {
        let board = board(*digit);
        if board > 7 {
            return Err(Refusal::Board);
        }
        set = set.with(board);
    }
    View::try_from(set)
}

// The latest view, as its line shows it.
fn latest(views: &Views) -> Group
    ensures { Latest views.now.history result }
{
    let view = views.current();
    let shares = view.shares();
    Group {
        view: views.latest(),
        members: view.set(),
        f: shares.f,
        q: shares.q,
        manager: view.manager(),
    }
}

// Makes one change after another, up to the first that is refused. A view's line is added once there is another answer after it.
fn changed(
    mut text: Vec<u8>,
    number: u64,
    mut views: Views,
    changes: &[u8],
) -> Result<Answered<'static>, AllocError>
    ensures { IfOk result (λ a. Changes number views.history changes.now text.items a.text.items a.last) }
{
    for digit in changes {
        text = answer_line(text, number, Answer::Viewed(latest(&views)))?;
        if let Err(refusal) = views.define(board(*digit)) {
            let last = Answer::Refused(refusal);
            return Ok(Answered { text, last });
        }
    }
    let last = Answer::Viewed(latest(&views));
    Ok(Answered { text, last })
}

// The views of the group of these members, each but the first after one of these changes; digits stand for boards.
// The last answer is the last view, or the refusal of the members, or of the first change that is refused.
pub fn views(
    text: Vec<u8>,
    number: u64,
    members: &[u8],
    changes: &[u8],
) -> Result<Answered<'static>, AllocError>
    ensures { IfOk result (λ a. Answers number members.now changes.now text.items a.text.items a.last) }
{
    match first(members) {
        Ok(view) => changed(text, number, Views::new(view), changes),
        Err(refusal) => {
            let last = Answer::Refused(refusal);
            Ok(Answered { text, last })
        }
    }
}

// Some calls worked out by hand.
#[tactic(auto, using(crate::proofs::Worked::worked))]
pub fn examples_stand()
    ensures { Examples }
{}
