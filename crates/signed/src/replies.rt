// One reply among those of a set: its entry and its tag; and the entry of the lowest earlier rank of all.
// Where the replies lie, heard or stored, makes no difference to the answer.
ghost use Rattle.std.specs.Prelude.{◌≡◌, ℕ, List, slice_index_or};
ghost use Rattle.boards.specs.Boards.{place};
ghost use Rattle.wire.specs.Messages.{reply_at, replies_by, heard_replies, stored_replies};
ghost use Rattle.wire.specs.Acts.{no_reply, lower, lowest};
ghost use Rattle.signed.specs.Signed.{TagIs};
ghost use Rattle.signed.specs.Places.{EntryAmong};

use crate::tags::eight;
use boards::Set;
use wire::message::{Entries, Entry, Replies};

// The entry byte at a place; no entry past the end.
fn entry_at(bytes: &[u8], at: usize) -> Entry
    ensures { result ≡ (reply_at bytes.now at).entry }
{
    bytes.get(at).map_or(Entry::NONE, |b| Entry::from(*b))
}

// The board's entry among the replies of a set; none for a board that is not in it.
pub(crate) fn entry_of(replies: Replies<'_>, board: u8) -> Option<Entry>
    ensures { EntryAmong replies.entry board result }
{
    let place = replies.set.rank(board)? - 1;
    Some(match replies.entries {
        Entries::Heard(bytes) => entry_at(bytes, 9 * usize::from(place)),
        Entries::Stored { entries, .. } => entries[usize::from(board)],
    })
}

// The board's tag among the replies of a set; none for a board that is not in it, or whose tag is not eight bytes.
pub(crate) fn reply_tag(replies: Replies<'_>, board: u8) -> Option<u64>
    ensures { TagIs replies.entry.set.bits board
        (slice_index_or (replies_by replies.entry) (place replies.entry.set.bits board) no_reply).tag result }
{
    let place = replies.set.rank(board)? - 1;
    match replies.entries {
        Entries::Heard(bytes) => eight(bytes, 9 * usize::from(place) + 1),
        Entries::Stored { tags, .. } => Some(tags[usize::from(board)]),
    }
}

// Of two entries the one with the lower earlier rank, 0 never counted; the first where they are equal.
fn lower(a: Entry, b: Entry) -> Entry
    ensures { result ≡ lower a b }
{
    if b.undercuts(a) { b } else { a }
}

// The entry of the lowest earlier rank among heard replies.
fn lowest_heard(bytes: &[u8]) -> Entry
    ensures { result ≡ lowest (heard_replies bytes.now) }
{
    bytes.chunks(9).rev().fold(Entry::NONE, |found, reply| lower(entry_at(reply, 0), found))
}

// The entry of the lowest earlier rank among the stored ones of a set.
fn lowest_stored(set: Set, entries: &[Entry; 8]) -> Entry
    ensures { (ts : List ℕ) → result ≡ lowest (stored_replies set.bits entries.now ts) }
{
    set.boards().rev().fold(Entry::NONE, |found, board| {
        lower(entries[usize::from(board)], found)
    })
}

// The entry of the lowest earlier rank among the replies of a set.
pub(crate) fn lowest(replies: Replies<'_>) -> Entry
    ensures { result ≡ lowest (replies_by replies.entry) }
{
    match replies.entries {
        Entries::Heard(bytes) => lowest_heard(bytes),
        Entries::Stored { entries, .. } => lowest_stored(replies.set, entries),
    }
}
