// The entries of a suggest-last, board by board: whether the format allows each, and the highest earlier rank.
// Heard and stored entries are gone through alike: board b's reply is `reply_of` in specs/Measures.antt.
ghost use Rattle.std.specs.Prelude.{◌≡◌};
ghost use Rattle.layout.specs.Measures.{Evened, Replied, proper};
ghost use Rattle.layout.specs.Layouts.{MayGather};

use crate::measure::count;
use crate::plan::Gathered;
use wire::field::{EARLIER, Field};
use wire::message::{Entries, Entry, Replies, Tags};

// The replies with their highest earlier rank; none if an entry is not allowed or there are not as many as boards.
pub(crate) fn gather<'a>(replies: Replies<'a>) -> Option<Gathered<'a>>
    ensures { MayGather replies.entry result }
{
    if !even(replies) {
        return None;
    }
    // Over all eight boards: for one outside the set `reply` answers none, and then the walk goes on, which no `map` of the reply says.
    let top = (0..8).try_fold(0u8, |top, board| match reply(replies, board) {
        Some((entry, _)) => allowed(entry).then_some(top.max(entry.earlier)),
        None => Some(top),
    })?;
    Some(Gathered { replies, top })
}

// Whether there are nine bytes for each board.
fn even(replies: Replies<'_>) -> bool
    ensures { Evened replies.entry.set.bits replies.entry.entries result }
{
    match replies.entries {
        Entries::Heard(bytes) => count(bytes) == 9 * usize::from(replies.set.len()),
        Entries::Stored { .. } => true,
    }
}

// A board's entry and tag, if it is of the set and its nine bytes are there.
// Apart from `entry_of` and `reply_tag` of crate signed: what a tag stands for is told by its entry's byte alone, even if the tag is cut short;
// writing wants all nine bytes or nothing.
pub fn reply<'a>(replies: Replies<'a>, board: u8) -> Option<(Entry, Tags<'a>)>
    ensures { Replied replies.entry.set.bits replies.entry.entries board result }
{
    let rank = replies.set.rank(board)?;
    match replies.entries {
        Entries::Heard(bytes) => {
            let at = 9 * (usize::from(rank) - 1);
            let (entry, tag) = bytes.get(at..at + 9)?.split_first()?;
            Some((Entry::from(*entry), Tags::Heard(tag)))
        }
        Entries::Stored { entries, tags } => Some((
            entries[usize::from(board)],
            Tags::Fresh(tags[usize::from(board)]),
        )),
    }
}

// Whether the format allows the entry.
fn allowed(e: Entry) -> bool
    ensures { result ≡ proper e }
{
    EARLIER.allows(e.earlier) && Field::entry_change(e.earlier).allows(e.change)
}
