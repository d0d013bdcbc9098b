// What a call does that nothing stands against: a message of the board's own goes out, an init is echoed, an echo collected, a commit delivered.
// Rules: docs/RULES.md, "Reports and closings". Formal text: specs/Effects.antt.
ghost use Rattle.std.specs.Prelude.{◌≡◌, ◌<◌, ◌≤◌, None, length};
ghost use Rattle.checks.specs.Checks.{genuine};
ghost use Rattle.wire.specs.Acts.{tag_number};
ghost use Rattle.wire.specs.Messages.{meaning, tag_by};
ghost use Rattle.wire.specs.Format.{Formed};
ghost use Rattle.row.specs.States.{counted};
ghost use Rattle.sending.specs.Sends.{Able};
ghost use Rattle.delivery.specs.Reports.{content, now};
ghost use Rattle.delivery.specs.Refusals.{next_number};
ghost use Rattle.delivery.specs.Effects.{collects, delivering, echoing, sending};
ghost use Rattle.delivery.specs.Calls.{Did, is_commit, report_heard, report_refusal, TagOf};
ghost use Rattle.delivery.specs.Ranges.{Fits, AllowedHead, OwnAllowed, Unsigned};
ghost use Rattle.delivery.specs.Plain.{plain, plain_content};

use crate::content::Content;
use crate::refusals::quorum;
use crate::reports::{Heard, Own, Record, Reports};
use boards::Set;
use row::row::Row;
use row::state::{Count, Sent};
use schemes::Scheme;
use sending::{NOTHING, post, say};
use signed::tag;
use wire::message::{Body, Content as Carried, Message};
use words::statement::{Claim, Statement};

// A count with one board more, and its tag.
fn counted(count: Count, board: u8, tag: u64) -> Count
    requires { board < 8 }
    ensures { result ≡ counted count board tag }
{
    let mut tags = count.tags;
    tags[board as usize] = tag;
    Count {
        set: count.set.with(board),
        tags,
    }
}

// The tag of an echo's speaker.
fn own_tag(m: &Message<'_>) -> u64
    requires { Formed (meaning m.now) }
    ensures { TagOf (meaning m.now) result }
{
    match m.body {
        Body::Echo { own, .. } => tag(m, own.speaker).unwrap(),
        _ => 0,
    }
}

impl Reports {
    // Sends a message under the board's next number to the members of the delivery view; from now on echoes are collected for it.
    pub(crate) fn send_own<S: Scheme>(
        &mut self,
        row: &Row,
        scheme: &mut S,
        content: Content,
        out: &mut [u8],
    ) -> Sent
        requires able { Able S.Scheme scheme.old out.old }
        requires there { 1 ≤ now (plain self.old) }
        requires next { next_number row.now.state (plain self.old) ≤ 255 }
        requires fits { Fits (plain_content content) }
        ensures { Did S.Scheme row.now.state.board (sending row.now.state (plain self.old) (plain_content content)) scheme.old out.old result (plain self.new) scheme.new out.new }
    {
        let number = self.count(row.board()) + 1;
        let statement = Statement {
            view: self.now(),
            claim: Claim::Init {
                content: content.carried(row.board(), number),
            },
        };
        let sent = say(scheme, row.board(), statement, self.readers(row), out).unwrap();
        self.own = Some(Own {
            number,
            content,
            collecting: true,
            echoes: Count::NONE,
        });
        sent
    }

    // Echoes an init to its sender; its content stays until a delivery.
    fn echo_init<S: Scheme>(
        &mut self,
        row: &Row,
        scheme: &mut S,
        said: Carried<'_>,
        out: &mut [u8],
    ) -> Sent
        requires able { Able S.Scheme scheme.old out.old }
        requires head { AllowedHead (now (plain self.old)) said.sender said.number (content said.sort said.payload.now) }
        ensures { Did S.Scheme row.now.state.board (echoing (plain self.old) said.entry.sender said.entry.number (content said.entry.sort said.entry.payload.now)) scheme.old out.old result (plain self.new) scheme.new out.new }
    {
        let statement = Statement {
            view: self.now(),
            claim: Claim::Echo { content: said },
        };
        let sent = say(scheme, row.board(), statement, Set::only(said.sender), out).unwrap();
        self.echoed[said.sender as usize] = Some(Content::of(said.sort, said.payload));
        sent
    }

    // Collects a board's echo of the board's own last message; once they are a quorum, commits it to the members of the delivery view, and collects no more.
    fn collect(&mut self, row: &Row, speaker: u8, tag: u64, out: &mut [u8]) -> Sent
        requires room { 128 ≤ length out.old }
        requires seated { speaker < 8 }
        requires head { OwnAllowed row.now.state.board (plain self.old) }
        ensures is { plain self.new ≡ (collects row.now.state (plain self.old) (plain self.old).own speaker tag).0 }
        ensures went { Unsigned (collects row.now.state (plain self.old) (plain self.old).own speaker tag).1 out.old result out.new }
    {
        let Some(own) = self.own else {
            return NOTHING;
        };
        let readers = self.readers(row);
        let echoes = counted(own.echoes, speaker, tag);
        if echoes.set.len() != quorum(readers) {
            self.own = Some(Own { echoes, ..own });
            return NOTHING;
        }
        self.own = Some(Own {
            collecting: false,
            echoes: Count::NONE,
            ..own
        });
        let commit = Message {
            view: self.now(),
            body: Body::Commit {
                content: own.content.carried(row.board(), own.number),
                by: echoes.tagged(),
            },
        };
        post(&commit, readers, out).unwrap()
    }

    // Delivers a message: the count rises, an end ends its sender, the record is out; then the board may be done with its delivery view.
    fn deliver(&mut self, row: &Row, said: Carried<'_>)
        requires sender { said.sender < 8 }
        requires fits { length said.payload.now ≤ 48 }
        ensures { plain self.new ≡ (delivering row.now.state (plain self.old) said.entry.sender said.entry.number (content said.entry.sort said.entry.payload.now)).0 }
    {
        let content = Content::of(said.sort, said.payload);
        let sender = said.sender as usize;
        self.counts[sender] = said.number;
        self.echoed[sender] = None;
        self.claims[sender] = content.claim();
        self.out = Some(Record {
            view: self.now(),
            sender: said.sender,
            number: said.number,
            content,
        });
        self.settle(row);
    }

    // What the board does with a message that nothing stands against.
    pub(crate) fn accept<S: Scheme>(
        &mut self,
        row: &Row,
        scheme: &mut S,
        m: &Message<'_>,
        out: &mut [u8],
    ) -> Heard
        requires formed { Formed (meaning m.now) }
        requires unrefused { report_refusal row.now.state (plain self.old) (meaning m.now) (length out.old) (genuine (S.good scheme.old) (meaning m.now)) (S.spent scheme.old) ≡ None }
        ensures did { Did S.Scheme row.now.state.board (report_heard row.now.state (plain self.old) (meaning m.now)) scheme.old out.old result.sent (plain self.new) scheme.new out.new }
        ensures says { result.delivered ≡ is_commit (meaning m.now) }
    {
        match m.body {
            Body::Init { content, .. } => Heard {
                sent: self.echo_init(row, scheme, content, out),
                delivered: false,
            },
            Body::Echo { own, .. } => Heard {
                sent: self.collect(row, own.speaker, own_tag(m), out),
                delivered: false,
            },
            Body::Commit { content, .. } => {
                self.deliver(row, content);
                Heard {
                    sent: NOTHING,
                    delivered: true,
                }
            }
            _ => Heard {
                sent: NOTHING,
                delivered: false,
            },
        }
    }
}
