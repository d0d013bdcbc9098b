// The parts of a layout, each at its own place in the bytes offered, and each byte written once.
// A cursor keeps the bytes and the place up to which they are written: each part begins where the one before it ends.
ghost use Rattle.std.specs.Prelude.{◌≡◌, ◌+◌, ◌*◌, ◌%◌, ◌≤◌, ◌∷◌, length};
ghost use Rattle.boards.specs.Boards.{size};
ghost use Rattle.wire.specs.Messages.{entry_byte, tag_bytes, tags_by, stored_tags, replies_by};
ghost use Rattle.layout.specs.Layouts.{head_bytes, replies_bytes, middle_bytes, layout_bytes};
ghost use Rattle.writer.specs.Writes.{Put, Puts};

use boards::Set;
use head::number::Head;
use layout::gather::reply;
use layout::plan::{Gathered, Layout, Middle};
use wire::message::{Entry, Tagged, Tags};

// The place stands beside the bytes: bytes that were cut off as they are written would not tell how many they were.
// How much room there is each step asks for its own part, since only `put_layout` knows all that is to come.
#[derive(Drop)]
struct Cursor<'b> {
    out: &'b mut [u8],
    at: usize,
}

// All the parts, and how many bytes they are.
pub(crate) fn put_layout(out: &mut [u8], layout: &Layout<'_>) -> usize
    requires { (length (layout_bytes layout.now) ≤ length out.old) × (layout.now.front.head.width % 8 ≡ 0) }
    ensures { Put out.old 0 (layout_bytes layout.now) result out.new }
{
    let mut cursor = Cursor { out, at: 0 };
    cursor.put_parts(layout);
    cursor.at
}

impl<'b> Cursor<'b> {
    fn put_parts(&mut self, layout: &Layout<'_>)
        requires { (self.old.at + length (layout_bytes layout.now) ≤ length self.old.out.now) × (layout.now.front.head.width % 8 ≡ 0) }
        ensures { Puts self.old (layout_bytes layout.now) self.new }
    {
        self.put_head(layout.front.head);
        self.put_middle(layout.front.middle);
        self.put(&[layout.by.set.bits]);
        self.put_tags(layout.by);
    }

    fn put(&mut self, part: &[u8])
        requires { self.old.at + length part.now ≤ length self.old.out.now }
        ensures { Puts self.old part.now self.new }
    {
        let end = self.at + part.len();
        let out = &mut *self.out;
        out[self.at..end].copy_from_slice(part);
        self.at = end;
    }

    fn put_head(&mut self, head: Head)
        requires { (self.old.at + length (head_bytes head) ≤ length self.old.out.now) × (head.width % 8 ≡ 0) }
        ensures { Puts self.old (head_bytes head) self.new }
    {
        // A cast by `as`: `usize::from` is no plainer, and one more fact to cite in the proof.
        let bytes = head.bytes();
        self.put(&bytes[..(head.width / 8) as usize]);
    }

    // What stands between the head and the last set.
    fn put_middle(&mut self, middle: Middle<'_>)
        requires { self.old.at + length (middle_bytes middle) ≤ length self.old.out.now }
        ensures { Puts self.old (middle_bytes middle.entry) self.new }
    {
        match middle {
            Middle::Nothing => {}
            Middle::Payload(bytes) => self.put(bytes),
            Middle::Tag(by) => self.put_tags(by),
            Middle::Replies(gathered) => self.put_replies(gathered),
        }
    }

    // The tags of a set, by rising board number.
    fn put_tags(&mut self, by: Tagged<'_>)
        requires { self.old.at + length (tags_by by) ≤ length self.old.out.now }
        ensures { Puts self.old (tags_by by.entry) self.new }
    {
        match by.tags {
            Tags::Heard(bytes) => self.put(bytes),
            Tags::Stored(row) => self.put_stored(by.set, row),
            Tags::Fresh(tag) => self.put_tag(tag),
        }
    }

    // The tags of a set out of a row that has one for each board.
    fn put_stored(&mut self, set: Set, row: &[u64; 8])
        requires { self.old.at + 8 * size set.bits ≤ length self.old.out.now }
        ensures { Puts self.old (stored_tags set.bits row.now) self.new }
    {
        for board in set.boards() {
            self.put_tag(row[usize::from(board)]);
        }
    }

    // A tag, the top byte first.
    fn put_tag(&mut self, tag: u64)
        requires { self.old.at + 8 ≤ length self.old.out.now }
        ensures { Puts self.old (tag_bytes tag) self.new }
    {
        self.put(&tag.to_be_bytes());
    }

    // The replies of a set, by rising board number: each entry before its tag.
    fn put_replies(&mut self, gathered: Gathered<'_>)
        requires { self.old.at + 9 * size gathered.replies.set.bits ≤ length self.old.out.now }
        ensures { Puts self.old (replies_bytes (replies_by gathered.entry.replies)) self.new }
    {
        let replies = gathered.replies;
        let boards = replies.set.boards();
        for (entry, tags) in boards.filter_map(|board| reply(replies, board)) {
            // The tag is one board's, heard or stored: where it lies beside the set makes no difference to its bytes.
            let own = Tagged {
                set: replies.set,
                tags,
            };
            self.put_reply(entry, own);
        }
    }

    // An entry's byte and its tag.
    fn put_reply(&mut self, entry: Entry, tag: Tagged<'_>)
        requires { self.old.at + 1 + length (tags_by tag) ≤ length self.old.out.now }
        ensures { Puts self.old (entry_byte entry ∷ tags_by tag.entry) self.new }
    {
        self.put(&[u8::from(entry)]);
        self.put_tags(tag);
    }
}
