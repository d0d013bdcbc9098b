// Sending: a message at the front of the offered bytes, and a board's own message with a tag that it just signed.
// Rules: docs/RULES.md, "Changing the group". What goes out: specs of crate row, Calls.antt.
#![tactic(auto)]

ghost use Rattle.std.specs.Prelude.{◌≡◌, [], Decides};
ghost use Rattle.wire.specs.Messages.{meaning, tag_bytes};
ghost use Rattle.wire.specs.Format.{Formed};
ghost use Rattle.words.specs.Said.{said};
ghost use Rattle.row.specs.States.{count_tags};
ghost use Rattle.row.specs.Effects.{lone};
ghost use Rattle.sending.specs.Sends.{GoesOut, SignsFor, Speaks};

use boards::Set;
use layout::lay::lay_out;
use row::state::{Count, ENOUGH, Sent};
use schemes::Scheme;
use wire::message::{Body, Message, Spoken, Tags};
use words::statement::{Claim, Statement};
use writer::write;

// What an accepted call answers that sends nothing.
pub const NOTHING: Sent = Sent {
    to: Set::EMPTY,
    length: 0,
};

// Whether there are bytes that spell a message.
pub fn is_formed(m: &Message<'_>) -> bool
    ensures { Decides result (Formed (meaning m.now)) }
{
    lay_out(m).is_some()
}

// Writes a message to these boards; none if it is not formed or there is no room for it, and then no byte changes.
// An `Option`, with no error: every caller knows that neither holds, and none asks which.
pub fn post(m: &Message<'_>, to: Set, out: &mut [u8]) -> Option<Sent>
    ensures { GoesOut to.bits (meaning m.now) out.old result out.new }
{
    let length = write(m, out).ok()?;
    Some(Sent { to, length })
}

// The lone message of a statement: its speaker, in a last what it has to show, and the tag.
// Not a `From`: a message takes these three besides the statement.
fn lone<'a>(statement: &Statement<'a>, board: u8, shown: &'a Count, tag: u64) -> Message<'a>
    ensures { meaning result ≡ lone (said statement.now) board shown.now.set.bits (count_tags shown.now) (tag_bytes tag) }
{
    let tag = Tags::Fresh(tag);
    let own = Spoken {
        speaker: board,
        tag,
    };
    let body = match statement.claim {
        Claim::Notify { change } => Body::Notify { change, own },
        Claim::Ack { rank, change } => Body::Ack { rank, change, own },
        Claim::Ready { rank, change } => Body::Ready { rank, change, own },
        Claim::Deputy { rank } => Body::Deputy { rank, own },
        Claim::Last { rank, entry } => Body::Last {
            rank,
            entry,
            own,
            proof: shown.tagged(),
        },
        Claim::Init { content } => Body::Init { content, tag },
        Claim::Echo { content } => Body::Echo { content, own },
    };
    Message {
        view: statement.view,
        body,
    }
}

// A board's tag for a statement; none if the statement has no words or the scheme refuses, and then nothing changes. An `Option`, as in `post`.
fn signed<S: Scheme>(scheme: &mut S, board: u8, statement: &Statement<'_>) -> Option<u64>
    ensures { SignsFor S.Scheme board (said statement.now) scheme.old result scheme.new }
{
    let words = statement.words()?;
    scheme.sign(board, words.as_slice()).ok()
}

// Signs a statement and writes its lone message; none if the board cannot, and then nothing changes. An `Option`, as in `post`.
// Its six parameters are what the call takes; `say` below leaves out what is shown.
pub fn speak<'a, S: Scheme>(
    scheme: &mut S,
    board: u8,
    statement: Statement<'a>,
    shown: &'a Count,
    to: Set,
    out: &mut [u8],
) -> Option<Sent>
    ensures { Speaks S.Scheme board to.bits (said statement.entry) shown.now.set.bits (count_tags shown.now) out.old scheme.old result scheme.new out.new }
{
    if out.len() < ENOUGH || !is_formed(&lone(&statement, board, shown, 0)) {
        return None;
    }
    let tag = signed(scheme, board, &statement)?;
    post(&lone(&statement, board, shown, tag), to, out)
}

// The same for a statement that has nothing to show.
pub fn say<S: Scheme>(
    scheme: &mut S,
    board: u8,
    statement: Statement<'_>,
    to: Set,
    out: &mut [u8],
) -> Option<Sent>
    ensures { Speaks S.Scheme board to.bits (said statement.entry) 0 [] out.old scheme.old result scheme.new out.new }
{
    speak(scheme, board, statement, &Count::NONE, to, out)
}
