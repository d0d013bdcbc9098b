// The entries that boards told in a message, each tested alone, and SPLIT.
// Rules: docs/RULES.md, "Changing the group"; what some board told: specs/Told.antt.
ghost use Rattle.std.specs.Prelude.{◌≡◌, Bool};
ghost use Rattle.wire.specs.declared.message.Entry.{Entry};
ghost use Rattle.wire.specs.Messages.{meaning};
ghost use Rattle.words.specs.Said.{said};
ghost use Rattle.row.specs.Refusals.{misplaced, differs, split};
ghost use Rattle.members.specs.Told.{entry_of, entry_by, some_told};

use signed::{lowest_entry, statement};
use wire::message::{Body, Entry, Message};
use words::statement::{Claim, Statement};

// Whether an earlier rank is neither 0 nor above the message's rank and at most n.
pub(crate) fn misplaced(rank: u8, n: u8, entry: Entry) -> bool
    ensures { result ≡ misplaced rank n entry }
{
    entry.earlier != 0 && (entry.earlier <= rank || n < entry.earlier)
}

// Whether an entry has the lowest earlier rank with another change.
fn differs(low: Entry, entry: Entry) -> bool
    ensures { result ≡ differs low entry }
{
    low.earlier != 0 && entry.earlier == low.earlier && entry.change != low.change
}

// The entry that a statement tells, which only a last does. `Entry::NONE` for any other, and no `Option`: rank 0 is the entries' own word
// for none, and passes neither test.
fn entry_of(statement: Statement<'_>) -> Entry
    ensures { result ≡ entry_of (said statement.entry) }
{
    match statement.claim {
        Claim::Last { entry, .. } => entry,
        _ => Entry::NONE,
    }
}

// The entry that a board signed, if it signed.
fn entry_by(m: &Message<'_>, board: u8) -> Option<Entry>
    ensures { result ≡ entry_by (meaning m.now) board }
{
    statement(m, board).map(entry_of)
}

// Whether some board told an entry that passes a test.
fn some_told<F: Fn(Entry) -> bool>(m: &Message<'_>, passes: F) -> bool
    requires { F.IsAlwaysCallable passes }
    ensures { (test : Entry → Bool) → ((e : Entry) (r : Bool) → F.post passes e r → r ≡ test e) → result ≡ some_told test (meaning m.now) }
{
    // Over all eight: `entry_by` leaves out who did not sign. A walk over `signers` was tried and proves, but asks that twice, by a longer proof.
    (0..8).any(|board| entry_by(m, board).is_some_and(|entry| passes(entry)))
}

// Each of the two tests has a function of its own: with the closure in its caller's place, which was tried, the search leaves both callers,
// `stranger` and `split`, open.

// Whether some board told an entry whose earlier rank is misplaced.
pub(crate) fn some_misplaced(m: &Message<'_>, rank: u8, n: u8) -> bool
    ensures { result ≡ some_told (misplaced rank n) (meaning m.now) }
{
    some_told(m, |entry| misplaced(rank, n, entry))
}

// Whether some board told an entry that differs from the lowest.
fn some_differs(m: &Message<'_>, low: Entry) -> bool
    ensures { result ≡ some_told (differs low) (meaning m.now) }
{
    some_told(m, |entry| differs(low, entry))
}

// SPLIT: in a suggest-last the lowest earlier rank stands with two changes.
pub fn split(m: &Message<'_>) -> bool
    ensures { result ≡ split (meaning m.now) }
{
    matches!(m.body, Body::SuggestLast { .. }) && some_differs(m, lowest_entry(m))
}
