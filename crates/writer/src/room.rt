// How many bytes the parts of a layout have, before any is written.
// No layout of a message has more than 141, so that the sums fit: specs of crate layout, Layouts.antt.
ghost use Rattle.std.specs.Prelude.{◌≡◌, ◌+◌, ◌<◌, ◌≤◌, length};
ghost use Rattle.wire.specs.Messages.{tags_by};
ghost use Rattle.layout.specs.Layouts.{layout_bytes, middle_bytes};

use layout::plan::{Layout, Middle};
use wire::message::{Tagged, Tags};

// The bytes of all the parts.
pub(crate) fn needed(layout: &Layout<'_>) -> usize
    requires { length (layout_bytes layout.now) ≤ 141 }
    ensures { result ≡ length (layout_bytes layout.now) }
{
    let front = layout.front;
    usize::from(front.head.width / 8) + of_middle(front.middle) + 1 + of_tags(layout.by)
}

// The bytes of what stands between the head and the last set.
fn of_middle(middle: Middle<'_>) -> usize
    ensures { result ≡ length (middle_bytes middle.entry) }
{
    match middle {
        Middle::Nothing => 0,
        Middle::Payload(bytes) => bytes.len(),
        Middle::Tag(by) => of_tags(by),
        Middle::Replies(gathered) => 9 * usize::from(gathered.replies.set.len()),
    }
}

// The bytes of the tags of a set. `layout::measure::fits` compares the same numbers, but has to know of heard tags that they are bytes too.
fn of_tags(by: Tagged<'_>) -> usize
    ensures { result ≡ length (tags_by by.entry) }
{
    match by.tags {
        Tags::Heard(bytes) => bytes.len(),
        Tags::Stored(_) => 8 * usize::from(by.set.len()),
        Tags::Fresh(_) => 8,
    }
}
