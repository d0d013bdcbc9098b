// A bench: eight rows over one register, which hear frames as bytes, and a round of votes from one certificate to the next.
// Rules: docs/RULES.md, "Changing the group".
use boards::Set;
use codes::Refusal;
use membership::calls::{ask_in, ask_out, hear};
use reader::read::read;
use row::row::Row;
use row::state::{ENOUGH, Sent};
use schemes::register::{Entry, Register};
use signed::proof;
use std::process::Abort;
use std::test::Fail;
use views::view::View;
use wire::kind::Kind;

// What an accepted call sent: to whom, and the bytes; nothing to nobody where it sent nothing.
#[derive(Clone, Copy)]
pub(crate) struct Frame {
    pub to: Set,
    bytes: [u8; ENOUGH],
    length: usize,
}

impl Frame {
    fn of(sent: Sent, bytes: [u8; ENOUGH]) -> Frame {
        Frame {
            to: sent.to,
            bytes,
            length: sent.length,
        }
    }

    // The bytes that were written.
    fn written(&self) -> &[u8] {
        self.bytes.get(..self.length).unwrap_or(&[])
    }

    // Its kind, if anything was sent.
    pub(crate) fn kind(&self) -> Option<Kind> {
        read(self.written()).ok().map(|m| m.kind())
    }

    // The boards of its proof, if it has one.
    pub(crate) fn proof(&self) -> Option<Set> {
        let m = read(self.written()).ok()?;
        proof(&m).map(|shown| shown.boards)
    }
}

// Every board's row in the same first view. Apart from `Bench::new`: the borrow checker does not cover a `Result` of a bench,
// which holds a `&mut` beside rows with ghost fields.
pub(crate) fn rows(first: Set) -> Result<[Row; 8], Refusal> {
    let view = View::try_from(first)?;
    Ok([
        Row::start(0, view)?,
        Row::start(1, view)?,
        Row::start(2, view)?,
        Row::start(3, view)?,
        Row::start(4, view)?,
        Row::start(5, view)?,
        Row::start(6, view)?,
        Row::start(7, view)?,
    ])
}

// The rows of all eight boards over one scheme; a quiet board hears and answers nothing in a round.
#[derive(Drop)]
pub(crate) struct Bench<'a> {
    rows: [Row; 8],
    scheme: Register<'a>,
    pub quiet: Set,
}

impl<'a> Bench<'a> {
    // Over an empty register.
    pub(crate) fn new(rows: [Row; 8], memory: &'a mut [Entry]) -> Bench<'a> {
        Bench {
            rows,
            scheme: Register::new(memory),
            quiet: Set::EMPTY,
        }
    }

    // The members of a view, as a board's row has them.
    pub(crate) fn members(&self, board: u8, view: u8) -> Set {
        self.rows
            .get(usize::from(board))
            .map_or(Set::EMPTY, |row| row.members(view))
    }

    // A board asks for a member to leave.
    pub(crate) fn ask_out(&mut self, board: u8, c: u8) -> Result<Frame, Refusal> {
        let row = self.rows.get_mut(usize::from(board)).ok_or(Refusal::Board)?;
        let mut out = [0; ENOUGH];
        let sent = ask_out(row, &mut self.scheme, c, &mut out)?;
        Ok(Frame::of(sent, out))
    }

    // A board asks for another to join.
    pub(crate) fn ask_in(
        &mut self,
        board: u8,
        c: u8,
        delivery: Option<u8>,
    ) -> Result<Frame, Refusal> {
        let row = self.rows.get_mut(usize::from(board)).ok_or(Refusal::Board)?;
        let mut out = [0; ENOUGH];
        let sent = ask_in(row, &mut self.scheme, c, delivery, &mut out)?;
        Ok(Frame::of(sent, out))
    }

    // A board hears a frame. No story has a message of another layer, which has no answer; ROW, which no row says, would end it.
    pub(crate) fn hear(&mut self, board: u8, frame: &Frame) -> Result<Frame, Refusal> {
        let row = self.rows.get_mut(usize::from(board)).ok_or(Refusal::Board)?;
        let m = read(frame.written())?;
        let mut out = [0; ENOUGH];
        let sent = hear(row, &mut self.scheme, &m, &mut out).ok_or(Refusal::Row)??;
        Ok(Frame::of(sent, out))
    }

    // A round: each board that the certificate goes to votes, and the leader, to whom all votes go, counts them. Answers what the leader sends.
    // A vote heard again is KNOWN while the leader counts; after a full count every vote is TURN.
    pub(crate) fn round(
        &mut self,
        rt: &impl Abort,
        leader: u8,
        certificate: &Frame,
    ) -> Result<Frame, Fail> {
        let mut next = None;
        for board in certificate.to.minus(self.quiet).boards() {
            let vote = self.hear(board, certificate)?;
            assert_eq!(rt; vote.to, Set::only(leader));
            if next.is_some() {
                assert_eq!(rt; self.hear(leader, &vote).err(), Some(Refusal::Turn));
            } else {
                let sent = self.hear(leader, &vote)?;
                if sent.to.is_empty() {
                    assert_eq!(rt; self.hear(leader, &vote).err(), Some(Refusal::Known));
                } else {
                    next = Some(sent);
                }
            }
        }
        Ok(next.ok_or("no full count")?)
    }

    // Two rounds from a suggest or suggest-last: its proposal to the same boards, and its change to all eight.
    pub(crate) fn led(
        &mut self,
        rt: &impl Abort,
        leader: u8,
        suggest: &Frame,
    ) -> Result<Frame, Fail> {
        let proposal = self.round(rt, leader, suggest)?;
        assert_eq!(rt; proposal.kind(), Some(Kind::Proposal));
        assert_eq!(rt; proposal.to, suggest.to);
        let change = self.round(rt, leader, &proposal)?;
        assert_eq!(rt; change.kind(), Some(Kind::Change));
        assert_eq!(rt; change.to, Set::ALL);
        Ok(change)
    }

    // Every board hears the change, members and others, and comes to the next view, which has these members.
    pub(crate) fn enact(
        &mut self,
        rt: &impl Abort,
        change: &Frame,
        view: u8,
        members: Set,
    ) -> Result<(), Fail> {
        for board in change.to.boards() {
            self.hear(board, change)?;
        }
        for row in &self.rows {
            assert_eq!(rt; row.latest(), view);
            assert_eq!(rt; row.members(view), members);
        }
        Ok(())
    }
}
