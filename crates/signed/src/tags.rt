// One tag among those of a set, as a number.
// Where the tags lie, heard, stored or fresh, makes no difference to the answer.
ghost use Rattle.std.specs.Prelude.{◌≡◌, take, drop};
ghost use Rattle.boards.specs.Boards.{only, place};
ghost use Rattle.wire.specs.Messages.{tag_by, tags_by};
ghost use Rattle.wire.specs.Acts.{tag_at};
ghost use Rattle.signed.specs.Signed.{TagIs};
ghost use Rattle.signed.specs.Places.{Eight};

use wire::message::{Spoken, Tagged, Tags};

// The eight bytes that begin at a place, as one number; none if there are fewer.
pub(crate) fn eight(bytes: &[u8], at: usize) -> Option<u64>
    ensures { Eight (take 8 (drop at bytes.now)) result }
{
    let tag = bytes.get(at..)?.first_chunk::<8>()?;
    Some(u64::from_be_bytes(*tag))
}

// The board's tag among those of a set; none for a board that is not in it, or whose tag is not eight bytes.
pub(crate) fn tag_by(by: Tagged<'_>, board: u8) -> Option<u64>
    ensures { TagIs by.entry.set.bits board (tag_at (place by.entry.set.bits board) (tags_by by.entry)) result }
{
    let place = by.set.rank(board)? - 1;
    match by.tags {
        Tags::Heard(bytes) => eight(bytes, 8 * usize::from(place)),
        Tags::Stored(tags) => Some(tags[usize::from(board)]),
        Tags::Fresh(tag) => (place == 0).then_some(tag),
    }
}

// The board's tag where it is the whole of a lone speaker's bytes.
pub(crate) fn whole_tag(own: Spoken<'_>, board: u8) -> Option<u64>
    ensures { TagIs (only own.entry.speaker) board (tag_by own.entry) result }
{
    match own.tag {
        Tags::Heard(bytes) if bytes.len() != 8 => None,
        _ => tag_by(own.tagged(), board),
    }
}
