// The words of a statement: a head of whole bytes, and in an init or an echo the payload.
// They are put together in one buffer, one part behind the other.
ghost use Rattle.std.specs.Prelude.{◌≡◌, ◌%◌, ◌≤◌, length};
ghost use Rattle.words.specs.Said.{said, Spelt};
ghost use Rattle.words.specs.Openings.{load, PutTogether, Stated};

use crate::statement::{Claim, Statement};
use crate::text::Words;
use bounded::Bytes;
use head::number::Head;
use head::shapes::{carried, entered, graded, noted, ranked};
use wire::kind::Kind;

impl<'a> Statement<'a> {
    // The words signed for a statement; none for one that no message could hold.
    pub fn words(&self) -> Option<Words>
        ensures { Spelt (said self.now) result }
    {
        Some(spelt(self.head()?, self.payload()))
    }

    // What the words open with.
    fn head(&self) -> Option<Head>
        ensures { Stated (said self.now) result }
    {
        let view = self.view;
        match self.claim {
            Claim::Notify { change } => noted(Kind::Notify, view, change),
            Claim::Ack { rank, change } => graded(Kind::Ack, view, rank, change),
            Claim::Ready { rank, change } => graded(Kind::Ready, view, rank, change),
            Claim::Deputy { rank } => ranked(Kind::Deputy, view, rank),
            Claim::Last { rank, entry } => entered(ranked(Kind::Last, view, rank)?, entry),
            Claim::Init { content } => carried(Kind::Init, view, content),
            Claim::Echo { content } => carried(Kind::Echo, view, content),
        }
    }

    // What follows, in an init and an echo.
    fn payload(&self) -> &'a [u8]
        ensures { load (said self.now) ≡ result.now }
    {
        match self.claim {
            Claim::Init { content } | Claim::Echo { content } => content.payload,
            _ => &[],
        }
    }
}

// A head and a payload as words.
fn spelt(head: Head, payload: &[u8]) -> Words
    requires { (head.width % 8 ≡ 0) × (length payload.now ≤ 48) }
    ensures { PutTogether head payload.now result }
{
    let first = head.bytes();
    // A cast by `as`: `usize::from` is no plainer, and one more fact in the proof.
    let front = Bytes::of(&first[..(head.width / 8) as usize]).unwrap();
    front.with(payload).unwrap()
}
