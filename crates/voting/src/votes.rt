// The votes of a row: an ack, a ready or a last for the rank that asked for it.
// Rules: docs/RULES.md, "Changing the group". What each does: `heard` in the specs of crate row, Effects.antt.
ghost use Rattle.std.specs.Prelude.{◌≡◌, ◌-◌, ◌*◌, ◌<◌, ◌≤◌, length, true};
ghost use Rattle.boards.specs.Boards.{size};
ghost use Rattle.wire.specs.Messages.{meaning};
ghost use Rattle.wire.specs.Acts.{signers};
ghost use Rattle.wire.specs.Format.{Formed};
ghost use Rattle.checks.specs.Checks.{genuine};
ghost use Rattle.row.specs.States.{with_floor};
ghost use Rattle.row.specs.Effects.{acks, heard, keeping, readies, tells};
ghost use Rattle.row.specs.Refusals.{answered, hear_refusal, Unless};
ghost use Rattle.row.specs.Calls.{Hears};
ghost use Rattle.sending.specs.Sends.{Able, Did, HeardIf};
ghost use Rattle.admission.specs.Judged.{Taken};
ghost use Rattle.voting.specs.Votes.{WholeTags};

use crate::voter::{heard_count, kept_entry, shown};
use admission::judge;
use codes::Refusal;
use refusals::kinds::answered;
use row::row::Row;
use row::state::{Kept, Sent, Voter};
use schemes::Scheme;
use seats::{called_for, seat};
use sending::{say, speak};
use signed::lowest_entry;
use wire::message::{Body, Message};
use words::statement::{Claim, Statement};

// Row, scheme and bytes stay three parameters: of a struct of three `&mut` each contract would have to name what lies behind every field.
// Ranks and boards come as the plain numbers of the format: the rules compare them with 0 and with n, and a type would be taken apart
// at each comparison. So their bounds stand in the contracts.
// Floors are written out in each vote (`3 * rank - k`): a call would be no shorter than the value.
// Each vote makes and sends its statement itself. One function of the claim and of what it shows was tried and is no shorter: six parameters,
// a contract of its own with board, rank, act and proof, and an ack and a ready would have to show that nothing to show has no tags.

// An ack for a change.
#[tactic(auto, unfolding(row::specs::Rows::keeps))]
fn ack<S: Scheme>(row: &mut Row, scheme: &mut S, rank: u8, change: u8, out: &mut [u8]) -> Sent
    requires able { Able S.Scheme scheme.old out.old }
    requires asked { (1 ≤ rank) × (rank ≤ 8) × (change < 8) }
    ensures { Did S.Scheme (with_floor row.old.state (3 * rank - 1), acks row.old.state rank change) row.old.state scheme.old out.old result row.new.state scheme.new out.new }
{
    let statement = Statement {
        view: row.latest(),
        claim: Claim::Ack { rank, change },
    };
    let sent = say(scheme, row.board(), statement, seat(row, rank), out).unwrap();
    row.state.voter.floor = 3 * rank - 1;
    sent
}

// A ready for a proposal, which is kept with the acks it came with. Its rank and change stand beside m: tags are asked of a whole message,
// and only the match that took it apart knows that it is a proposal.
fn ready<S: Scheme>(
    row: &mut Row,
    scheme: &mut S,
    m: &Message<'_>,
    rank: u8,
    change: u8,
    out: &mut [u8],
) -> Sent
    requires able { Able S.Scheme scheme.old out.old }
    requires asked { (1 ≤ rank) × (rank ≤ 8) × (change < 8) }
    requires whole { WholeTags (meaning m.now) }
    requires some { 1 ≤ size (signers (meaning m.now)) }
    ensures { Did S.Scheme (keeping row.old.state rank change (meaning m.now) (signers (meaning m.now)), readies row.old.state rank change) row.old.state scheme.old out.old result row.new.state scheme.new out.new }
{
    let statement = Statement {
        view: row.latest(),
        claim: Claim::Ready { rank, change },
    };
    let sent = say(scheme, row.board(), statement, seat(row, rank), out).unwrap();
    row.state.voter = Voter {
        floor: 3 * rank - 2,
        kept: Some(Kept { rank, change }),
        support: heard_count(m),
        ..row.state.voter
    };
    sent
}

// A last that tells the kept proposal, with its acks as proof, or none.
#[tactic(auto, unfolding(row::specs::Rows::keeps))]
fn last<S: Scheme>(row: &mut Row, scheme: &mut S, rank: u8, out: &mut [u8]) -> Sent
    requires able { Able S.Scheme scheme.old out.old }
    requires asked { (1 ≤ rank) × (rank ≤ 8) }
    ensures { Did S.Scheme (with_floor row.old.state (3 * rank), tells row.old.state rank) row.old.state scheme.old out.old result row.new.state scheme.new out.new }
{
    let entry = kept_entry(row);
    let statement: Statement<'static> = Statement {
        view: row.latest(),
        claim: Claim::Last { rank, entry },
    };
    let proof = shown(row);
    let sent = speak(scheme, row.board(), statement, &proof, seat(row, rank), out).unwrap();
    row.state.voter.floor = 3 * rank;
    sent
}

// What the row does with a message that it takes.
fn accepted<S: Scheme>(row: &mut Row, scheme: &mut S, m: &Message<'_>, out: &mut [u8]) -> Sent
    requires taken { Taken S.Scheme row.old.state scheme.old (meaning m.now) (length out.old) }
    requires votes { answered (meaning m.now) ≡ true }
    ensures { Did S.Scheme (heard row.old.state (meaning m.now)) row.old.state scheme.old out.old result row.new.state scheme.new out.new }
{
    match m.body {
        Body::Suggest { change, .. } => ack(row, scheme, row.view().len(), change, out),
        Body::Proposal { rank, change, .. } => ready(row, scheme, m, rank, change, out),
        Body::Query { rank, .. } => last(row, scheme, rank, out),
        Body::SuggestLast { rank, .. } => {
            let change = called_for(row, lowest_entry(m));
            ack(row, scheme, rank, change, out)
        }
        // `hear` asked `answered` first, which holds of these four kinds alone.
        _ => unreachable(),
    }
}

// What the row answers to a message of the four kinds: the reason against it, or what it does.
// A function, not `Result::map`: what a closure that it does not call leaves of its captures is not known.
fn taken<S: Scheme>(
    verdict: Result<(), Refusal>,
    row: &mut Row,
    scheme: &mut S,
    m: &Message<'_>,
    out: &mut [u8],
) -> Result<Sent, Refusal>
    requires formed { Formed (meaning m.now) }
    requires votes { answered (meaning m.now) ≡ true }
    requires judged { Unless (hear_refusal row.old.state (meaning m.now) (length out.old) (genuine (S.good scheme.old) (meaning m.now)) (S.spent scheme.old)) verdict }
    ensures { Hears S.Scheme row.old.state scheme.old (meaning m.now) out.old result row.new.state scheme.new out.new }
{
    verdict?;
    Ok(accepted(row, scheme, m, out))
}

// Hears a suggest, a proposal, a query or a suggest-last; any other message, and a value that no bytes spell, has no answer here.
// So an `Option` of the `Result`: no answer is neither a reason against the message nor something sent.
pub fn hear<S: Scheme>(
    row: &mut Row,
    scheme: &mut S,
    m: &Message<'_>,
    out: &mut [u8],
) -> Option<Result<Sent, Refusal>>
    ensures { HeardIf S.Scheme answered row.old.state scheme.old (meaning m.now) out.old result row.new.state scheme.new out.new }
{
    if !answered(m) {
        return None;
    }
    let verdict = judge(row, scheme, m, out.len())?;
    Some(taken(verdict, row, scheme, m, out))
}
