// Lists as text, with commas between the items and a dash for none: the boards of a set, tags, entries.
// What stands in each list: specs/Texts.antt; tags and entries as a message means them, heard, stored or fresh.
ghost use Rattle.std.specs.Prelude.{◌≡◌, ◌<◌, ℕ, List};
ghost use Rattle.std.specs.Iterator.{AlwaysYields, IsFinite};
ghost use Rattle.boards.specs.Boards.{member};
ghost use Rattle.wire.specs.Messages.{listed, replies_by, tag_bytes, tags_by};
ghost use Rattle.script.specs.Lines.{Wrote};
ghost use Rattle.script.specs.Texts.{boards_text, commas, entries_text, entry_text, hex, replied_text, tags_text};

use crate::line::Text;
use crate::numbers::Hex;
use boards::Set;
use std::alloc::AllocError;
use wire::message::{Entries, Entry, Replies, Tagged, Tags};

// Items with commas between them; a dash for none.
fn commas<I: Iterator + Drop>(line: &mut Vec<u8>, mut items: I) -> Result<(), AllocError>
where
    I::Item: Text + Drop,
    requires can { I.can_next items }
    requires ends { IsFinite (I.remaining items) }
    ensures { (texts : List (List ℕ)) → AlwaysYields I.next_gives I.Item.text items texts → Wrote line.old (commas texts) result line.new }
{
    // An `else`: a list with no item is no error that `?` could pass on.
    let Some(first) = items.next() else {
        return "-".write(line);
    };
    first.write(line)?;
    for item in items {
        (",", item).write(line)?;
    }
    Ok(())
}

// What stands at each board of a set, by rising number.
fn at_boards<T: Text + Drop, F: Fn(u8) -> T>(
    line: &mut Vec<u8>,
    set: Set,
    at: F,
) -> Result<(), AllocError>
    requires { (b : ℕ) → b < 8 → F.pre at b }
    ensures { (text : ℕ → List ℕ) → ((b : ℕ) (item : T) → F.post at b item → T.text item ≡ text b)
        → Wrote line.old (commas (listed (member set.bits) text 8)) result line.new }
{
    commas(line, set.boards().map(at))
}

// The boards of a set.
#[derive(Clone, Copy)]
pub(crate) struct Boards(pub(crate) Set);

impl Text for Boards {
    ghost text = { λ s. boards_text s.0.bits };

    fn write(&self, line: &mut Vec<u8>) -> Result<(), AllocError> {
        at_boards(line, self.0, |board| board)
    }
}

// A tag in hexadecimal.
#[derive(Clone, Copy)]
struct Tag(u64);

impl Text for Tag {
    ghost text = { λ t. hex (tag_bytes t.0) };

    fn write(&self, line: &mut Vec<u8>) -> Result<(), AllocError> {
        Hex(&self.0.to_be_bytes()).write(line)
    }
}

// An entry: its earlier rank and its change.
impl Text for Entry {
    ghost text = { entry_text };

    fn write(&self, line: &mut Vec<u8>) -> Result<(), AllocError> {
        if self.earlier == 0 {
            return "none".write(line);
        }
        (self.earlier, (":", self.change)).write(line)
    }
}

// The tags of a set's boards: heard, eight bytes each, stored by board number, or one that was just signed.
impl Text for Tagged<'_> {
    ghost text = { λ by. tags_text (tags_by by) };

    fn write(&self, line: &mut Vec<u8>) -> Result<(), AllocError> {
        match self.tags {
            Tags::Heard(bytes) => commas(line, bytes.chunks(8).map(|tag| Hex(tag))),
            Tags::Stored(tags) => {
                at_boards(line, self.set, |board| Tag(tags[usize::from(board)]))
            }
            Tags::Fresh(tag) => Tag(tag).write(line),
        }
    }
}

// The entries of a set's boards: heard, each in the first of nine bytes, or stored by board number.
#[derive(Clone, Copy)]
pub(crate) struct EntriesOf<'a>(pub(crate) Replies<'a>);

impl Text for EntriesOf<'_> {
    ghost text = { λ by. entries_text (replies_by by.0) };

    fn write(&self, line: &mut Vec<u8>) -> Result<(), AllocError> {
        match self.0.entries {
            Entries::Heard(bytes) => {
                commas(line, bytes.chunks(9).map(|reply| Entry::from(reply[0])))
            }
            Entries::Stored { entries, .. } => {
                at_boards(line, self.0.set, |board| entries[usize::from(board)])
            }
        }
    }
}

// The tags beside them: heard, each in the eight bytes after its entry.
#[derive(Clone, Copy)]
pub(crate) struct TagsOf<'a>(pub(crate) Replies<'a>);

impl Text for TagsOf<'_> {
    ghost text = { λ by. replied_text (replies_by by.0) };

    fn write(&self, line: &mut Vec<u8>) -> Result<(), AllocError> {
        match self.0.entries {
            Entries::Heard(bytes) => commas(line, bytes.chunks(9).map(|reply| Hex(&reply[1..]))),
            Entries::Stored { tags, .. } => {
                // Written out: a call would be no shorter than the value.
                let tagged = Tagged {
                    set: self.0.set,
                    tags: Tags::Stored(tags),
                };
                tagged.write(line)
            }
        }
    }
}
