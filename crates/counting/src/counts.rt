// The kinds that a row counts as manager or deputy; a full count goes out as a certificate.
// Rules: docs/RULES.md, "Changing the group". What each does: `heard` in the specs of crate row, Effects.antt.
ghost use Rattle.std.specs.Prelude.{◌≡◌, ◌≤◌, length};
ghost use Rattle.boards.specs.Boards.{size};
ghost use Rattle.wire.specs.Messages.{meaning};
ghost use Rattle.wire.specs.Acts.{tag_number};
ghost use Rattle.counting.specs.Counts.{Counted, SpeaksIt, Tallied, certificate, audience, least, own_tag, slot_of, stand_of};
ghost use Rattle.row.specs.Effects.{heard};

use crate::leader::gained;
use boards::Set;
use row::row::Row;
use row::state::{Count, Leader, Sent, Slot, Stand};
use sending::{NOTHING, post};
use signed::tag;
use views::view::View;
use wire::message::{Body, Message};

// A lone message that is counted, but for its speaker and tag. Not a `Claim`, of whose seven kinds three are not counted here:
// each method would have an arm that cannot be met.
#[derive(Clone, Copy)]
pub(crate) enum Tally {
    Notify { change: u8 },
    Ack { rank: u8, change: u8 },
    Ready { rank: u8, change: u8 },
    Deputy { rank: u8 },
}

impl Tally {
    // Where it is counted. `turns` says it too, of a message that it tests: that crate stands below, and a tally is what is counted here.
    fn slot(self) -> Slot
        ensures { result ≡ slot_of self }
    {
        match self {
            Tally::Notify { change } => Slot::Notify(change),
            Tally::Ack { .. } => Slot::Ack,
            Tally::Ready { .. } => Slot::Ready,
            Tally::Deputy { .. } => Slot::Deputy,
        }
    }

    // How many make a certificate: f + 1 notifies or deputy messages, a quorum of acks or readies.
    fn least(self, view: &View) -> u8
        ensures { result ≡ least self (size view.now.set.bits) }
    {
        match self {
            Tally::Notify { .. } | Tally::Deputy { .. } => view.one_correct(),
            Tally::Ack { .. } | Tally::Ready { .. } => view.quorum(),
        }
    }

    // Where the leader stands then.
    fn stand(self) -> Stand
        ensures { result ≡ stand_of self }
    {
        match self {
            Tally::Notify { change } => Stand::Acks { change },
            Tally::Ack { change, .. } => Stand::Readies { change },
            Tally::Ready { .. } => Stand::Done,
            Tally::Deputy { .. } => Stand::Lasts,
        }
    }

    // To whom the certificate goes: a change to all eight boards, any other to the members.
    fn to(self, view: &View) -> Set
        ensures { result.bits ≡ audience self view.now.set.bits }
    {
        match self {
            Tally::Ready { .. } => Set::ALL,
            _ => view.set(),
        }
    }

    // The certificate of a full count in a view.
    fn certificate(self, view: u8, count: &Count) -> Message<'_>
        ensures { meaning result ≡ certificate self view count.now }
    {
        let by = count.tagged();
        let body = match self {
            Tally::Notify { change } => Body::Suggest { change, by },
            Tally::Ack { rank, change } => Body::Proposal { rank, change, by },
            Tally::Ready { rank, change } => Body::Change { rank, change, by },
            Tally::Deputy { rank } => Body::Query { rank, by },
        };
        Message { view, body }
    }
}

// The tag of a message's speaker.
pub(crate) fn own_tag(m: &Message<'_>, speaker: u8) -> u64
    requires { SpeaksIt (meaning m.now) speaker }
    ensures { result ≡ tag_number (own_tag (meaning m.now)) }
{
    tag(m, speaker).unwrap()
}

// Counts a lone message; once its count is full the leader stands elsewhere, and the certificate goes out.
pub(crate) fn count(
    row: &mut Row,
    m: &Message<'_>,
    tally: Tally,
    speaker: u8,
    out: &mut [u8],
) -> Sent
    requires tallied { Tallied (meaning m.now) tally speaker }
    requires room { 128 ≤ length out.old }
    ensures { Counted (heard row.old.state (meaning m.now)) out.old result row.new.state out.new }
{
    let view = row.view();
    let leader = gained(
        &row.state.leader,
        tally.slot(),
        speaker,
        own_tag(m, speaker),
    );
    let full = leader.at(tally.slot());
    if full.set.len() == tally.least(&view) {
        let certificate = tally.certificate(row.latest(), &full);
        row.state.leader = Leader {
            stand: tally.stand(),
            ..leader
        };
        post(&certificate, tally.to(&view), out).unwrap()
    } else {
        row.state.leader = leader;
        NOTHING
    }
}
