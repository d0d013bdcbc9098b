// A board: its row in the membership layer and its reports, one beside the other, with every call that it takes and the questions about it.
// Rules: docs/RULES.md, "Changing the group" and "Reports and closings". What each call promises: specs/Boards.antt.
#![tactic(auto)]

ghost use Rattle.std.specs.Prelude.{◌≡◌, ◌<◌, ◌≤◌, MatchResult, is_some};
ghost use Rattle.codes.specs.declared.Refusal.TheVariants.{Board as NoBoard};
ghost use Rattle.views.specs.Histories.{members_of};
ghost use Rattle.wire.specs.Messages.{meaning};
ghost use Rattle.row.specs.States.{latest};
ghost use Rattle.delivery.specs.Reports.{count_of};
ghost use Rattle.delivery.specs.Calls.{Takes};
ghost use Rattle.delivery.specs.Plain.{plain, plain_record, SaysDelivered};
ghost use Rattle.board.specs.Boards.{AtStart, EndSent, GroupHeardAny, InAsked, MessageHeard, OutAsked, ReportSent};

use boards::Set;
use codes::Refusal;
use delivery::reports::{Heard, Record, Reports};
use membership::calls;
use row::row::Row;
use row::state::Sent;
use schemes::Scheme;
use views::view::View;
use wire::message::Message;

// The fields are private: only the calls below change a board, so that its reports have followed its row through every call.
#[derive(Clone, Copy)]
pub struct Board {
    row: Row,
    reports: Reports,
}

impl Board {
    // A board in its first view, or BOARD if there is no such board. Members of the view deliver in it, others in none.
    pub fn start(board: u8, first: View) -> Result<Board, Refusal>
        ensures { MatchResult result (λ b. (board < 8) × AtStart first.set board b.row.state (plain b.reports)) (λ e. (8 ≤ board) × (e ≡ NoBoard)) }
    {
        let row = Row::start(board, first)?;
        let reports = Reports::start(board, &first);
        Ok(Board { row, reports })
    }

    // Asks for another member to leave: to whom and how many bytes, or the first reason against it.
    pub fn ask_out<S: Scheme>(
        &mut self,
        scheme: &mut S,
        change: u8,
        out: &mut [u8],
    ) -> Result<Sent, Refusal>
        ensures { OutAsked S.Scheme change out.old result out.new self.old.row.state (plain self.old.reports) scheme.old self.new.row.state (plain self.new.reports) scheme.new }
    {
        calls::ask_out(&mut self.row, scheme, change, out)
    }

    // Asks for a board to join, by the board's own delivery view. Answers as ask-out does.
    pub fn ask_in<S: Scheme>(
        &mut self,
        scheme: &mut S,
        change: u8,
        out: &mut [u8],
    ) -> Result<Sent, Refusal>
        ensures { InAsked S.Scheme change out.old result out.new self.old.row.state (plain self.old.reports) scheme.old self.new.row.state (plain self.new.reports) scheme.new }
    {
        calls::ask_in(&mut self.row, scheme, change, self.reports.view(), out)
    }

    // Sends a report of at most 48 bytes. Answers as ask-out does.
    pub fn send<S: Scheme>(
        &mut self,
        scheme: &mut S,
        payload: &[u8],
        out: &mut [u8],
    ) -> Result<Sent, Refusal>
        ensures { ReportSent S.Scheme payload.now out.old result out.new self.old.row.state (plain self.old.reports) scheme.old self.new.row.state (plain self.new.reports) scheme.new }
    {
        self.reports.send(&self.row, scheme, payload, out)
    }

    // Sends the board's end in its delivery view. Answers as ask-out does.
    pub fn finish<S: Scheme>(&mut self, scheme: &mut S, out: &mut [u8]) -> Result<Sent, Refusal>
        ensures { EndSent S.Scheme out.old result out.new self.old.row.state (plain self.old.reports) scheme.old self.new.row.state (plain self.new.reports) scheme.new }
    {
        self.reports.finish(&self.row, scheme, out)
    }

    // Hears a message of the group: the row takes it, and then the reports follow the row.
    fn hear_group<S: Scheme>(
        &mut self,
        scheme: &mut S,
        m: &Message<'_>,
        out: &mut [u8],
    ) -> Option<Result<Sent, Refusal>>
        ensures { GroupHeardAny S.Scheme (meaning m.now) out.old result out.new self.old.row.state (plain self.old.reports) scheme.old self.new.row.state (plain self.new.reports) scheme.new }
    {
        let latest = self.row.latest();
        let answer = calls::hear(&mut self.row, scheme, m, out);
        self.reports.follow(latest, &self.row);
        answer
    }

    // Hears a message of any kind: kinds 1 to 10 at its row, which its reports then follow, kinds 11 to 13 at its reports. A value that no bytes spell has no answer and changes nothing.
    pub fn hear<S: Scheme>(
        &mut self,
        scheme: &mut S,
        m: &Message<'_>,
        out: &mut [u8],
    ) -> Option<Result<Heard, Refusal>>
        ensures does { MessageHeard S.Scheme (meaning m.now) out.old result out.new self.old.row.state (plain self.old.reports) scheme.old self.new.row.state (plain self.new.reports) scheme.new }
        ensures says { SaysDelivered (meaning m.now) result }
    {
        match self.hear_group(scheme, m, out) {
            Some(Ok(sent)) => Some(Ok(Heard {
                sent,
                delivered: false,
            })),
            Some(Err(refusal)) => Some(Err(refusal)),
            None => self.reports.hear(&self.row, scheme, m, out),
        }
    }

    // Takes the record that is out; zeros if none is. Then none is out.
    pub fn take(&mut self) -> Record
        ensures row { self.new.row.state ≡ self.old.row.state }
        ensures takes { Takes (plain self.old.reports) (plain_record result) (plain self.new.reports) }
    {
        self.reports.take()
    }

    // Which board it is, 0 to 7.
    pub fn number(&self) -> u8
        ensures is { result ≡ self.now.row.state.board }
        ensures below { result < 8 }
    {
        self.row.board()
    }

    // The number of its latest view.
    pub fn latest(&self) -> u8
        ensures { result ≡ latest self.now.row.state }
    {
        self.row.latest()
    }

    // The members of its v-th view; no boards unless v is 1 to the latest.
    pub fn members(&self, v: u8) -> Set
        ensures { result.bits ≡ members_of self.now.row.state.views v }
    {
        self.row.members(v)
    }

    // Its delivery view; none where it delivers in none.
    pub fn delivery_view(&self) -> Option<u8>
        ensures { result ≡ (plain self.now.reports).view }
    {
        self.reports.view()
    }

    // How many messages of a sender it delivered in its delivery view; 0 of a board above 7.
    pub fn count(&self, sender: u8) -> u8
        ensures { result ≡ count_of (plain self.now.reports) sender }
    {
        self.reports.count(sender)
    }

    // Whether a record is out, that is, delivered and not taken yet.
    pub fn is_out(&self) -> bool
        ensures { result ≡ is_some (plain self.now.reports).out }
    {
        self.reports.is_out()
    }
}

#[cfg(test)]
mod tests {
    use super::*;
    use boards::Set;
    use delivery::reports::Heard;
    use reader::read::read;
    use schemes::register::{Entry, Register};
    use std::process::Abort;
    use std::test::Fail;

    // What a board heard of the frame that it wrote itself before; the offered bytes then have what it wrote on hearing that.
    fn hears<S: Scheme>(
        rt: &impl Abort,
        board: &mut Board,
        scheme: &mut S,
        page: &mut [u8; 128],
        length: usize,
    ) -> Result<Heard, Fail> {
        let frame = *page;
        let m = read(frame.get(..length).ok_or("too long")?)?;
        let heard = board.hear(scheme, &m, page).ok_or("no answer")??;
        assert_eq!(rt; board.latest(), 1);
        Ok(heard)
    }

    // Board 3 alone sends a report to itself, echoes it, commits it and delivers it.
    #[test]
    fn one_delivers_its_own(rt: HostRuntime) -> Result<(), Fail> {
        let mut memory = [Entry::blank(); 2];
        let mut scheme = Register::new(&mut memory);
        let mut board = Board::start(3, View::try_from(Set::only(3))?)?;
        let mut page = [0; 128];
        let init = board.send(&mut scheme, b"hot", &mut page)?;
        let echo = hears(&rt, &mut board, &mut scheme, &mut page, init.length)?;
        let commit = hears(&rt, &mut board, &mut scheme, &mut page, echo.sent.length)?;
        assert_eq!(rt; (board.count(3), board.is_out()), (0, false));
        let delivery = hears(&rt, &mut board, &mut scheme, &mut page, commit.sent.length)?;
        assert_eq!(rt; (delivery.delivered, delivery.sent.length), (true, 0));
        assert_eq!(rt; (board.count(3), board.is_out()), (1, true));
        let record = board.take();
        assert_eq!(rt; (record.view, record.sender, record.number), (1, 3, 1));
        assert!(rt; record.content.payload.as_slice() == b"hot".as_slice());
        assert!(rt; !board.is_out());
        Ok(())
    }

    // There is no board 8.
    #[test]
    fn no_ninth_board(rt: HostRuntime) -> Result<(), Fail> {
        let first = View::try_from(Set::only(3))?;
        assert_eq!(rt; Board::start(8, first).err(), Some(Refusal::Board));
        Ok(())
    }
}
