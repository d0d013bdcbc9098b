// A bench: eight boards over one scheme, each its membership half beside its reports, which hear frames as bytes; and rounds, from what a board sends to what it has sent on a full count.
// Rules: docs/RULES.md, "Changing the group" and "Reports and closings".
use boards::Set;
use codes::Refusal;
use delivery::reports::{Record, Reports};
use membership::calls;
use reader::read::read;
use row::row::Row;
use row::state::{ENOUGH, Sent};
use schemes::Scheme;
use sending::{post, say};
use signed::{signers, tag};
use std::process::Abort;
use std::test::Fail;
use views::view::View;
use wire::kind::Kind;
use wire::message::{Body, Content, Message, Sort, Tagged, Tags};
use words::statement::{Claim, Statement};

// Boards 0 to 4: a fault is tolerated, two are more than can be faulty, four are a quorum. Board 4 manages.
pub(crate) const FIVE: Set = Set { bits: 0b1111_1000 };

// What each offered byte is before a call.
const BLANK: u8 = 0xA5;

// What a board says: a content of a sender under a number, in a view.
#[derive(Clone, Copy)]
pub(crate) struct Said<'a> {
    pub view: u8,
    pub content: Content<'a>,
}

// A report.
pub(crate) fn report(view: u8, sender: u8, number: u8, payload: &[u8]) -> Said<'_> {
    Said {
        view,
        content: Content {
            sender,
            number,
            sort: Sort::Report,
            payload,
        },
    }
}

// An end, whose one byte is its claim.
pub(crate) fn end(view: u8, sender: u8, number: u8, claim: &[u8; 1]) -> Said<'_> {
    Said {
        view,
        content: Content {
            sender,
            number,
            sort: Sort::End,
            payload: claim,
        },
    }
}

// What a message carries under a sender and a number, if it is of this layer.
fn content<'a>(m: &Message<'a>) -> Option<Content<'a>> {
    match m.body {
        Body::Init { content, .. } | Body::Echo { content, .. } | Body::Commit { content, .. } => {
            Some(content)
        }
        _ => None,
    }
}

// What an accepted call sent: to whom, and the bytes; nothing to nobody where it sent nothing.
#[derive(Clone, Copy)]
pub(crate) struct Frame {
    pub to: Set,
    bytes: [u8; ENOUGH],
    length: usize,
}

impl Frame {
    // The bytes that were written.
    fn written(&self) -> &[u8] {
        self.bytes.get(..self.length).unwrap_or(&[])
    }

    // Its kind, if anything was sent.
    pub(crate) fn kind(&self) -> Option<Kind> {
        read(self.written()).ok().map(|m| m.kind())
    }

    // The same frame, its last tag another one, which is good in no scheme that a story uses.
    pub(crate) fn forged(&self) -> Frame {
        let mut forged = *self;
        if let Some(byte) = forged.bytes.get_mut(self.length.saturating_sub(8)) {
            *byte ^= 0x80;
        }
        forged
    }

    // It goes to these boards, says this, and has the tags of these boards: head, payload, set and tags are all its bytes.
    fn carries(&self, rt: &impl Abort, kind: Kind, to: Set, said: Said<'_>, by: Set) {
        let m = read(self.written()).ok().expect(rt, "no message");
        let carried = content(&m).expect(rt, "of another layer");
        assert_eq!(rt; self.to, to);
        assert_eq!(rt; m.kind(), kind);
        assert_eq!(rt; m.view, said.view);
        assert_eq!(rt; carried.sender, said.content.sender);
        assert_eq!(rt; carried.number, said.content.number);
        assert_eq!(rt; carried.sort, said.content.sort);
        assert!(rt; carried.payload == said.content.payload);
        assert_eq!(rt; signers(&m), by);
        assert_eq!(rt;
            self.length,
            5 + carried.payload.len() + 8 * usize::from(by.len())
        );
    }

    // An init of what is said, to these boards.
    pub(crate) fn is_init(&self, rt: &impl Abort, said: Said<'_>, to: Set) {
        self.carries(rt, Kind::Init, to, said, Set::only(said.content.sender));
    }

    // A board's echo, to the sender.
    pub(crate) fn is_echo(&self, rt: &impl Abort, said: Said<'_>, speaker: u8) {
        let sender = Set::only(said.content.sender);
        self.carries(rt, Kind::Echo, sender, said, Set::only(speaker));
    }

    // A commit by a set of boards.
    pub(crate) fn is_commit(&self, rt: &impl Abort, said: Said<'_>, by: Set, to: Set) {
        self.carries(rt, Kind::Commit, to, said, by);
    }

    // Nothing was sent.
    pub(crate) fn is_nothing(&self, rt: &impl Abort) {
        assert_eq!(rt; self.to, Set::EMPTY);
        assert_eq!(rt; self.length, 0);
    }
}

// What a call sent into offered bytes. Past the message they keep their values; all of them where nothing is sent or the call is refused.
fn sent(
    rt: &impl Abort,
    answer: Result<Sent, Refusal>,
    bytes: [u8; ENOUGH],
) -> Result<Frame, Refusal> {
    let length = answer.map_or(0, |sent| sent.length);
    assert!(rt; bytes.iter().skip(length).all(|byte| *byte == BLANK));
    let sent = answer?;
    Ok(Frame {
        to: sent.to,
        bytes,
        length,
    })
}

// A board: its membership half beside its reports.
#[derive(Clone, Copy)]
pub(crate) struct Seat {
    row: Row,
    reports: Reports,
}

impl Seat {
    fn start(board: u8, first: View) -> Result<Seat, Refusal> {
        Ok(Seat {
            row: Row::start(board, first)?,
            reports: Reports::start(board, &first),
        })
    }
}

// Every board in the same first view. Apart from `Bench::new`: the borrow checker does not cover a `Result` of a bench,
// which holds a `&mut` beside rows with ghost fields.
pub(crate) fn seats(first: Set) -> Result<[Seat; 8], Refusal> {
    let view = View::try_from(first)?;
    Ok([
        Seat::start(0, view)?,
        Seat::start(1, view)?,
        Seat::start(2, view)?,
        Seat::start(3, view)?,
        Seat::start(4, view)?,
        Seat::start(5, view)?,
        Seat::start(6, view)?,
        Seat::start(7, view)?,
    ])
}

// All eight boards over one scheme, and how many bytes a call is offered, at most 128.
#[derive(Drop)]
pub(crate) struct Bench<S> {
    seats: [Seat; 8],
    scheme: S,
    pub room: usize,
}

impl<S: Scheme> Bench<S> {
    pub(crate) fn new(seats: [Seat; 8], scheme: S) -> Bench<S> {
        Bench {
            seats,
            scheme,
            room: ENOUGH,
        }
    }

    // The delivery view of a board.
    pub(crate) fn view(&self, board: u8) -> Option<u8> {
        self.seats
            .get(usize::from(board))
            .and_then(|seat| seat.reports.view())
    }

    // How many messages of a sender a board delivered in its delivery view.
    pub(crate) fn count(&self, board: u8, sender: u8) -> u8 {
        self.seats
            .get(usize::from(board))
            .map_or(0, |seat| seat.reports.count(sender))
    }

    // The same of every sender.
    pub(crate) fn counts(&self, board: u8) -> [u8; 8] {
        let mut counts = [0; 8];
        for sender in 0..8u8 {
            counts[sender as usize] = self.count(board, sender);
        }
        counts
    }

    // Whether a record is out at a board.
    pub(crate) fn is_out(&self, board: u8) -> bool {
        self.seats
            .get(usize::from(board))
            .is_some_and(|seat| seat.reports.is_out())
    }

    // A board sends a report.
    pub(crate) fn send(
        &mut self,
        rt: &impl Abort,
        board: u8,
        payload: &[u8],
    ) -> Result<Frame, Refusal> {
        let seat = self
            .seats
            .get_mut(usize::from(board))
            .ok_or(Refusal::Board)?;
        let mut out = [BLANK; ENOUGH];
        let offered = &mut out[..self.room.min(ENOUGH)];
        let answer = seat
            .reports
            .send(&seat.row, &mut self.scheme, payload, offered);
        sent(rt, answer, out)
    }

    // A board sends its end.
    pub(crate) fn finish(&mut self, rt: &impl Abort, board: u8) -> Result<Frame, Refusal> {
        let seat = self
            .seats
            .get_mut(usize::from(board))
            .ok_or(Refusal::Board)?;
        let mut out = [BLANK; ENOUGH];
        let offered = &mut out[..self.room.min(ENOUGH)];
        let answer = seat.reports.finish(&seat.row, &mut self.scheme, offered);
        sent(rt, answer, out)
    }

    // A board takes the record that is out; then none is.
    pub(crate) fn take(&mut self, rt: &impl Abort, board: u8) -> Result<Record, Refusal> {
        let seat = self
            .seats
            .get_mut(usize::from(board))
            .ok_or(Refusal::Board)?;
        let record = seat.reports.take();
        assert!(rt; !seat.reports.is_out());
        Ok(record)
    }

    // A board takes the record that is out, and it is of what was said.
    pub(crate) fn takes(&mut self, rt: &impl Abort, board: u8, said: Said<'_>) -> Result<(), Fail> {
        assert!(rt; self.is_out(board));
        let record = self.take(rt, board)?;
        assert_eq!(rt; record.view, said.view);
        assert_eq!(rt; record.sender, said.content.sender);
        assert_eq!(rt; record.number, said.content.number);
        assert_eq!(rt; record.content.sort, said.content.sort);
        assert!(rt; record.content.payload.as_slice() == said.content.payload);
        Ok(())
    }

    // A board asks for a member to leave; its reports follow.
    pub(crate) fn ask_out(&mut self, rt: &impl Abort, board: u8, c: u8) -> Result<Frame, Refusal> {
        let seat = self
            .seats
            .get_mut(usize::from(board))
            .ok_or(Refusal::Board)?;
        let mut out = [BLANK; ENOUGH];
        let latest = seat.row.latest();
        let answer = calls::ask_out(&mut seat.row, &mut self.scheme, c, &mut out);
        seat.reports.follow(latest, &seat.row);
        sent(rt, answer, out)
    }

    // A board asks for another to join, and says in which view it delivers; its reports follow.
    pub(crate) fn ask_in(&mut self, rt: &impl Abort, board: u8, c: u8) -> Result<Frame, Refusal> {
        let seat = self
            .seats
            .get_mut(usize::from(board))
            .ok_or(Refusal::Board)?;
        let mut out = [BLANK; ENOUGH];
        let latest = seat.row.latest();
        let delivery = seat.reports.view();
        let answer = calls::ask_in(&mut seat.row, &mut self.scheme, c, delivery, &mut out);
        seat.reports.follow(latest, &seat.row);
        sent(rt, answer, out)
    }

    // A board hears a frame: its reports one of kinds 11 to 13, which puts a record out if it is a commit; its membership half one of kinds 1 to 10, and its reports follow.
    // ROW, which neither half says, would end a story.
    pub(crate) fn hear(
        &mut self,
        rt: &impl Abort,
        board: u8,
        frame: &Frame,
    ) -> Result<Frame, Refusal> {
        let seat = self
            .seats
            .get_mut(usize::from(board))
            .ok_or(Refusal::Board)?;
        let m = read(frame.written())?;
        let mut out = [BLANK; ENOUGH];
        let offered = &mut out[..self.room.min(ENOUGH)];
        let latest = seat.row.latest();
        let answer = match seat.reports.hear(&seat.row, &mut self.scheme, &m, offered) {
            Some(Ok(heard)) => {
                assert_eq!(rt; heard.delivered, m.kind() == Kind::Commit);
                Ok(heard.sent)
            }
            Some(Err(refusal)) => Err(refusal),
            None => calls::hear(&mut seat.row, &mut self.scheme, &m, offered).ok_or(Refusal::Row)?,
        };
        seat.reports.follow(latest, &seat.row);
        sent(rt, answer, out)
    }

    // A faulty board signs a claim, and writes it to these boards.
    fn sign(
        &mut self,
        rt: &impl Abort,
        board: u8,
        view: u8,
        claim: Claim<'_>,
        to: Set,
    ) -> Result<Frame, Fail> {
        let mut out = [BLANK; ENOUGH];
        let statement = Statement { view, claim };
        let written = say(&mut self.scheme, board, statement, to, &mut out).ok_or("not signed")?;
        Ok(sent(rt, Ok(written), out)?)
    }

    // An init of its own that a faulty board signs.
    pub(crate) fn signs_init(
        &mut self,
        rt: &impl Abort,
        said: Said<'_>,
        to: Set,
    ) -> Result<Frame, Fail> {
        let content = said.content;
        self.sign(rt, content.sender, said.view, Claim::Init { content }, to)
    }

    // An echo that a faulty board signs.
    pub(crate) fn signs_echo(
        &mut self,
        rt: &impl Abort,
        board: u8,
        said: Said<'_>,
    ) -> Result<Frame, Fail> {
        let content = said.content;
        let to = Set::only(content.sender);
        self.sign(rt, board, said.view, Claim::Echo { content }, to)
    }

    // A round: each of these boards hears what a board sent, and that board hears each answer. What it sends on a full count is returned, and then each answer more is TURN;
    // before, the same answer again is KNOWN.
    pub(crate) fn round(
        &mut self,
        rt: &impl Abort,
        leader: u8,
        frame: &Frame,
        by: Set,
    ) -> Result<Frame, Fail> {
        let mut next = None;
        for board in by.boards() {
            let answer = self.hear(rt, board, frame)?;
            assert_eq!(rt; answer.to, Set::only(leader));
            if next.is_some() {
                assert_eq!(rt; self.hear(rt, leader, &answer).err(), Some(Refusal::Turn));
            } else {
                let full = self.hear(rt, leader, &answer)?;
                if full.to.is_empty() {
                    assert_eq!(rt; self.hear(rt, leader, &answer).err(), Some(Refusal::Known));
                } else {
                    next = Some(full);
                }
            }
        }
        Ok(next.ok_or("no full count")?)
    }

    // A board sends a report, which these boards echo; the commit.
    pub(crate) fn reports(
        &mut self,
        rt: &impl Abort,
        said: Said<'_>,
        by: Set,
    ) -> Result<Frame, Fail> {
        let sender = said.content.sender;
        let init = self.send(rt, sender, said.content.payload)?;
        self.round(rt, sender, &init, by)
    }

    // A board sends its end, which these boards echo; the commit.
    pub(crate) fn ends(&mut self, rt: &impl Abort, said: Said<'_>, by: Set) -> Result<Frame, Fail> {
        let sender = said.content.sender;
        let init = self.finish(rt, sender)?;
        self.round(rt, sender, &init, by)
    }

    // Each of these boards hears the commit of what was said, and takes the record.
    pub(crate) fn deliver(
        &mut self,
        rt: &impl Abort,
        commit: &Frame,
        said: Said<'_>,
        at: Set,
    ) -> Result<(), Fail> {
        for board in at.boards() {
            self.hear(rt, board, commit)?.is_nothing(rt);
            self.takes(rt, board, said)?;
        }
        Ok(())
    }

    // The manager hears these boards' asks, and leads their change in two rounds.
    pub(crate) fn led(
        &mut self,
        rt: &impl Abort,
        manager: u8,
        asks: &[Frame],
    ) -> Result<Frame, Fail> {
        let mut last = None;
        for ask in asks {
            last = Some(self.hear(rt, manager, ask)?);
        }
        let suggest = last.ok_or("nobody asked")?;
        let proposal = self.round(rt, manager, &suggest, suggest.to)?;
        let change = self.round(rt, manager, &proposal, proposal.to)?;
        assert_eq!(rt; change.kind(), Some(Kind::Change));
        Ok(change)
    }

    // Each of these boards hears a change.
    pub(crate) fn enact(&mut self, rt: &impl Abort, change: &Frame, at: Set) -> Result<(), Fail> {
        for board in at.boards() {
            self.hear(rt, board, change)?;
        }
        Ok(())
    }
}

// A commit of what is said, with the tags of these echoes, to these boards: as anyone can write it who has them.
pub(crate) fn gathered(
    rt: &impl Abort,
    said: Said<'_>,
    echoes: &[Frame],
    to: Set,
) -> Result<Frame, Fail> {
    let mut set = Set::EMPTY;
    let mut tags = [0; 8];
    for echo in echoes {
        let m = read(echo.written())?;
        let speaker = signers(&m).at(1).ok_or("nobody spoke")?;
        let tag = tag(&m, speaker).ok_or("no tag")?;
        let place = tags.get_mut(usize::from(speaker)).ok_or("no such board")?;
        *place = tag;
        set = set.with(speaker);
    }
    let by = Tagged {
        set,
        tags: Tags::Stored(&tags),
    };
    let commit = Message {
        view: said.view,
        body: Body::Commit {
            content: said.content,
            by,
        },
    };
    let mut out = [BLANK; ENOUGH];
    let written = post(&commit, to, &mut out).ok_or("no message")?;
    Ok(sent(rt, Ok(written), out)?)
}
