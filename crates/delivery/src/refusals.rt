// Why a call is refused: each reason as a test named by its code, and for each call its list, of which the first that holds is the answer.
// Rules: docs/RULES.md, "Reports and closings"; order: docs/REFUSALS.md. Formal text: specs/Refusals.antt.
ghost use Rattle.std.specs.Prelude.{◌≡◌, ◌≤◌, option_map};
ghost use Rattle.boards.specs.Boards.{size};
ghost use Rattle.checks.specs.Checks.{genuine};
ghost use Rattle.views.specs.Shares.{quorum};
ghost use Rattle.wire.specs.Messages.{meaning};
ghost use Rattle.wire.specs.Format.{Formed};
ghost use Rattle.row.specs.Refusals.{strays, Unless};
ghost use Rattle.delivery.specs.Reports.{undelivered, content, echo_of, now};
ghost use Rattle.delivery.specs.Refusals.{busy, cut_off, disordered, double_refuses, has_finished, known_refuses, let_through, member_refuses, next_number, order_refuses_commit, order_refuses_init, readers, size_refuses, turn_refuses_echo, turn_refuses_finish, turn_refuses_send, view_refuses};
ghost use Rattle.delivery.specs.Refusals.{send_refusal, finish_refusal, init_refusal, echo_refusal, commit_refusal};
ghost use Rattle.delivery.specs.Calls.{report_refusal};
ghost use Rattle.delivery.specs.Plain.{plain, plain_content};

use crate::content::{Content, LONGEST};
use crate::endings::left_out;
use crate::reports::Reports;
use boards::Set;
use checks::all_good;
use codes::Refusal;
use row::row::Row;
use row::state::ENOUGH;
use schemes::Scheme;
use views::view::View;
use wire::message::{Body, Content as Carried, Message, Sort};

// The highest number, which is kept for an end.
const HIGHEST: u16 = 255;

// No board.
const NOBODY: u8 = 8;

// Whether a set has a board outside a view.
#[tactic(auto, using(row::proofs::Picked::strays_is))]
fn strays(set: Set, view: Set) -> bool
    ensures { result ≡ strays set.bits view.bits }
{
    !set.within(view)
}

// How many of a set of boards make a quorum; 0 of no boards.
#[tactic(auto, unfolding(views::specs::Shares::quorum, views::specs::Shares::share))]
pub(crate) fn quorum(set: Set) -> u8
    ensures { result ≡ quorum (size set.bits) }
{
    View::try_from(set).map_or(0, |view| view.quorum())
}

impl Reports {
    // The delivery view; 0, which is no view, where there is none.
    pub(crate) fn now(&self) -> u8
        ensures is { result ≡ now (plain self.now) }
        ensures few { result ≤ 64 }
    {
        self.view.unwrap_or(0)
    }

    // The members of the delivery view.
    pub(crate) fn readers(&self, row: &Row) -> Set
        ensures { result.bits ≡ readers row.now.state (plain self.now) }
    {
        row.members(self.now())
    }

    // The number of the board's next message.
    fn next_number(&self, row: &Row) -> u16
        ensures { result ≡ next_number row.now.state (plain self.now) }
    {
        u16::from(self.count(row.board())) + 1
    }

    // What was echoed under a sender's next number.
    fn echo(&self, sender: u8) -> Option<Content>
        ensures { option_map plain_content result ≡ echo_of (plain self.now) sender }
    {
        self.echoed.get(usize::from(sender)).copied().flatten()
    }

    // VIEW: a message is not for the delivery view.
    fn view_refuses(&self, view: u8) -> bool
        ensures { result ≡ view_refuses (plain self.now) view }
    {
        !self.view.is_some_and(|y| view == y)
    }

    // MEMBER: the board, the sender or a board of the set is not in the delivery view.
    fn member_refuses(&self, row: &Row, sender: u8, set: Set) -> bool
        ensures { result ≡ member_refuses row.now.state (plain self.now) sender set.bits }
    {
        let readers = self.readers(row);
        strays(Set::only(row.board()), readers)
            || strays(Set::only(sender), readers)
            || strays(set, readers)
    }

    // Whether the board sent its end here.
    fn is_finished(&self) -> bool
        ensures { result ≡ has_finished (plain self.now) }
    {
        self.own.is_some_and(|own| own.content.sort == Sort::End)
    }

    // Whether the board's last is not delivered here yet.
    fn is_undelivered(&self, count: u8) -> bool
        ensures { result ≡ undelivered (plain self.now).own count }
    {
        self.own.is_some_and(|own| count < own.number)
    }

    // TURN of a send and a finish: after the board's end, or while its last is undelivered here.
    fn is_busy(&self, row: &Row) -> bool
        ensures { result ≡ busy row.now.state (plain self.now) }
    {
        self.is_finished() || self.is_undelivered(self.count(row.board()))
    }

    // TURN of a send: then, or at the highest number.
    fn turn_refuses_send(&self, row: &Row) -> bool
        ensures { result ≡ turn_refuses_send row.now.state (plain self.now) }
    {
        self.is_busy(row) || self.next_number(row) >= HIGHEST
    }

    // TURN of a finish: then, with the latest view not above the delivery view, or past the highest number.
    fn turn_refuses_finish(&self, row: &Row) -> bool
        ensures { result ≡ turn_refuses_finish row.now.state (plain self.now) }
    {
        self.is_busy(row) || row.latest() <= self.now() || self.next_number(row) > HIGHEST
    }

    // TURN of an echo: the sender is another board, or echoes are not collected for just this message.
    fn turn_refuses_echo(&self, row: &Row, said: Carried<'_>) -> bool
        ensures { result ≡ turn_refuses_echo row.now.state (plain self.now) said.entry.sender said.entry.number (content said.entry.sort said.entry.payload.now) }
    {
        !(said.sender == row.board()
            && self.own.is_some_and(|own| {
                own.collecting
                    && own.number == said.number
                    && own.content.is(said.sort, said.payload)
            }))
    }

    // ORDER of an init and a commit: the number is not the sender's next, or the sender has ended.
    fn is_disordered(&self, sender: u8, number: u8) -> bool
        ensures { result ≡ disordered (plain self.now) sender number }
    {
        u16::from(number) != u16::from(self.count(sender)) + 1 || self.claim(sender).is_some()
    }

    // Whether a sender is cut off: the board that the next view leaves out is, from the board's own end on.
    fn is_cut_off(&self, row: &Row, sender: u8) -> bool
        ensures { result ≡ cut_off row.now.state (plain self.now) sender }
    {
        self.is_finished() && sender == left_out(&row.views(), self.now()).unwrap_or(NOBODY)
    }

    // Whether the cut is known and a number is at most the cut.
    fn lets_through(&self, row: &Row, number: u8) -> bool
        ensures { result ≡ let_through row.now.state (plain self.now) number }
    {
        let views = row.views();
        self.has_ends(&views, self.now()) && number <= self.cut(&views, self.now())
    }

    // ORDER of an init: then, or its sender is cut off.
    fn order_refuses_init(&self, row: &Row, sender: u8, number: u8) -> bool
        ensures { result ≡ order_refuses_init row.now.state (plain self.now) sender number }
    {
        self.is_disordered(sender, number) || self.is_cut_off(row, sender)
    }

    // ORDER of a commit: then, or its sender is cut off and the commit is not let through.
    fn order_refuses_commit(&self, row: &Row, sender: u8, number: u8) -> bool
        ensures { result ≡ order_refuses_commit row.now.state (plain self.now) sender number }
    {
        self.is_disordered(sender, number)
            || self.is_cut_off(row, sender) && !self.lets_through(row, number)
    }

    // KNOWN: the speaker's echo is collected already.
    fn known_refuses(&self, speaker: u8) -> bool
        ensures { result ≡ known_refuses (plain self.now) speaker }
    {
        self.own.is_some_and(|own| own.echoes.set.has(speaker))
    }

    // DOUBLE: another content was echoed under this number.
    fn double_refuses(&self, said: Carried<'_>) -> bool
        ensures { result ≡ double_refuses (plain self.now) said.entry.sender (content said.entry.sort said.entry.payload.now) }
    {
        self.echo(said.sender)
            .is_some_and(|echo| !echo.is(said.sort, said.payload))
    }

    // SIZE: not exactly a quorum of the delivery view.
    fn size_refuses(&self, row: &Row, set: Set) -> bool
        ensures { result ≡ size_refuses row.now.state (plain self.now) set.bits }
    {
        set.len() != quorum(self.readers(row))
    }

    // Whether a payload of so many bytes may be sent, or why not.
    pub(crate) fn may_send(
        &self,
        row: &Row,
        long: usize,
        room: usize,
        spent: bool,
    ) -> Result<(), Refusal>
        ensures { Unless (send_refusal row.now.state (plain self.now) long room spent) result }
    {
        if room < ENOUGH {
            Err(Refusal::Out)
        } else if long > LONGEST {
            Err(Refusal::Long)
        } else if self.view.is_none() {
            Err(Refusal::View)
        } else if self.turn_refuses_send(row) {
            Err(Refusal::Turn)
        } else if spent {
            Err(Refusal::Spent)
        } else {
            Ok(())
        }
    }

    // Whether the board may send its end, or why not.
    pub(crate) fn may_finish(&self, row: &Row, room: usize, spent: bool) -> Result<(), Refusal>
        ensures { Unless (finish_refusal row.now.state (plain self.now) room spent) result }
    {
        if room < ENOUGH {
            Err(Refusal::Out)
        } else if self.view.is_none() {
            Err(Refusal::View)
        } else if self.turn_refuses_finish(row) {
            Err(Refusal::Turn)
        } else if spent {
            Err(Refusal::Spent)
        } else {
            Ok(())
        }
    }

    // Whether an init is echoed, or why not.
    fn may_echo<S: Scheme>(
        &self,
        row: &Row,
        scheme: &S,
        m: &Message<'_>,
        said: Carried<'_>,
        room: usize,
    ) -> Result<(), Refusal>
        requires { Formed (meaning m.now) }
        ensures { Unless (init_refusal row.now.state (plain self.now) m.now.view said.entry.sender said.entry.number (content said.entry.sort said.entry.payload.now) room (genuine (S.good scheme.now) (meaning m.now)) (S.spent scheme.now)) result }
    {
        if room < ENOUGH {
            Err(Refusal::Out)
        } else if self.view_refuses(m.view) {
            Err(Refusal::View)
        } else if self.member_refuses(row, said.sender, Set::only(said.sender)) {
            Err(Refusal::Member)
        } else if self.order_refuses_init(row, said.sender, said.number) {
            Err(Refusal::Order)
        } else if self.double_refuses(said) {
            Err(Refusal::Double)
        } else if !all_good(scheme, m) {
            Err(Refusal::Tag)
        } else if scheme.is_spent() {
            Err(Refusal::Spent)
        } else {
            Ok(())
        }
    }

    // Whether a speaker's echo is collected, or why not.
    fn may_collect<S: Scheme>(
        &self,
        row: &Row,
        scheme: &S,
        m: &Message<'_>,
        said: Carried<'_>,
        speaker: u8,
        room: usize,
    ) -> Result<(), Refusal>
        requires { Formed (meaning m.now) }
        ensures { Unless (echo_refusal row.now.state (plain self.now) m.now.view said.entry.sender said.entry.number (content said.entry.sort said.entry.payload.now) speaker room (genuine (S.good scheme.now) (meaning m.now))) result }
    {
        if room < ENOUGH {
            Err(Refusal::Out)
        } else if self.view_refuses(m.view) {
            Err(Refusal::View)
        } else if self.member_refuses(row, said.sender, Set::only(speaker)) {
            Err(Refusal::Member)
        } else if self.turn_refuses_echo(row, said) {
            Err(Refusal::Turn)
        } else if self.known_refuses(speaker) {
            Err(Refusal::Known)
        } else if !all_good(scheme, m) {
            Err(Refusal::Tag)
        } else {
            Ok(())
        }
    }

    // Whether a message is delivered by a commit of a set of boards, or why not.
    fn may_deliver<S: Scheme>(
        &self,
        row: &Row,
        scheme: &S,
        m: &Message<'_>,
        said: Carried<'_>,
        set: Set,
        room: usize,
    ) -> Result<(), Refusal>
        requires { Formed (meaning m.now) }
        ensures { Unless (commit_refusal row.now.state (plain self.now) m.now.view said.entry.sender said.entry.number set.bits room (genuine (S.good scheme.now) (meaning m.now))) result }
    {
        if room < ENOUGH {
            Err(Refusal::Out)
        } else if self.view_refuses(m.view) {
            Err(Refusal::View)
        } else if self.member_refuses(row, said.sender, set) {
            Err(Refusal::Member)
        } else if self.is_out() {
            Err(Refusal::Turn)
        } else if self.order_refuses_commit(row, said.sender, said.number) {
            Err(Refusal::Order)
        } else if self.size_refuses(row, set) {
            Err(Refusal::Size)
        } else if !all_good(scheme, m) {
            Err(Refusal::Tag)
        } else {
            Ok(())
        }
    }

    // Whether the board accepts a message of kinds 11 to 13, or why not; nothing stands here against one of another kind.
    pub(crate) fn may_hear<S: Scheme>(
        &self,
        row: &Row,
        scheme: &S,
        m: &Message<'_>,
        room: usize,
    ) -> Result<(), Refusal>
        requires { Formed (meaning m.now) }
        ensures { Unless (report_refusal row.now.state (plain self.now) (meaning m.now) room (genuine (S.good scheme.now) (meaning m.now)) (S.spent scheme.now)) result }
    {
        match m.body {
            Body::Init { content, .. } => self.may_echo(row, scheme, m, content, room),
            Body::Echo { content, own } => {
                self.may_collect(row, scheme, m, content, own.speaker, room)
            }
            Body::Commit { content, by } => {
                self.may_deliver(row, scheme, m, content, by.set, room)
            }
            _ => Ok(()),
        }
    }
}
