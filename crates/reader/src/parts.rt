// What stands behind the heads, all of it whole bytes: sets, tags, entries, proofs, and the end of the message.
// Format: docs/FRAMES.md, "Parts".
ghost use Rattle.reader.specs.Places.{Ended, LoneRead, PartRead, SetRead};
ghost use Rattle.reader.specs.Parts.{AnswerRead, EntriesRead, TagsRead, SpokenRead, OwnRead, TaggedRead, ProofRead, RepliesRead};

use crate::place::{Reading, Whole};
use boards::Set;
use grammar::fault::{Fault, Layer};
use wire::field::{EARLIER, Field, SET, ZERO};
use wire::message::{Entries, Entry, Replies, Spoken, Tagged, Tags};

// An entry with the tag that it precedes.
#[derive(Clone, Copy)]
pub struct Answer<'a> {
    pub entry: Entry,
    pub tag: &'a [u8],
}

impl<'a> Whole<'a> {
    // Some bytes, as a part of what is read.
    pub(crate) fn bytes(self, n: usize) -> Reading<'a, &'a [u8]>
        ensures { PartRead n self.entry.reader result }
    {
        let mut reader = self.reader;
        // No `ok_or` with `?` (tried): the proof has to take the result apart again, which the `else` does by itself.
        let Some(part) = reader.src[reader.byte..].get(..n) else {
            return Err(reader.missing());
        };
        reader.byte += n;
        Ok((part, Whole { reader }))
    }

    // A set whose byte is from `least` to `most`: two bytes and no `Field`, of which it would have to be asked that it is as wide as a set.
    fn set(self, least: u8, most: u8) -> Reading<'a, Set>
        ensures { SetRead least most self.entry.reader result }
    {
        let mut reader = self.reader;
        let bits = reader.value(SET.within(least, most))?;
        Ok((Set { bits }, Whole { reader }))
    }

    // A set of just one board; answers the board.
    pub(crate) fn lone(self) -> Reading<'a, u8>
        ensures { LoneRead self.entry.reader result }
    {
        let mut reader = self.reader;
        let set = Set {
            bits: reader.number(SET)?,
        };
        if set.len() != 1 {
            return Err(reader.refused());
        }
        reader.skip(SET);
        Ok((set.at(1).unwrap(), Whole { reader }))
    }

    // Nothing more.
    fn end(self) -> Result<(), Fault>
        ensures { Ended self.entry.reader result }
    {
        let reader = self.reader;
        if reader.byte < reader.src.len() {
            // Written out, as the reader's two other faults are: a call would be no shorter than the value.
            return Err(Fault {
                layer: Layer::Bytes,
                place: reader.byte,
            });
        }
        Ok(())
    }

    // The last tags of a message, so many, and nothing more.
    fn tags(self, count: u8) -> Result<Tags<'a>, Fault>
        ensures { TagsRead count self.entry.reader result }
    {
        let (tags, rest) = self.bytes(8 * usize::from(count))?;
        rest.end()?;
        Ok(Tags::Heard(tags))
    }

    // Just the speaker, and its tag.
    pub(crate) fn spoken(self) -> Result<Spoken<'a>, Fault>
        ensures { SpokenRead self.entry.reader result }
    {
        let (speaker, rest) = self.lone()?;
        let tag = rest.tags(1)?;
        Ok(Spoken { speaker, tag })
    }

    // Just this board, and its tag.
    pub(crate) fn own(self, board: u8) -> Result<Tags<'a>, Fault>
        ensures { OwnRead board self.entry.reader result }
    {
        let bits = Set::only(board).bits;
        let (_, rest) = self.set(bits, bits)?;
        rest.tags(1)
    }

    // A set whose byte is from `least` to `most`, and its boards' tags.
    fn tagged_within(self, least: u8, most: u8) -> Result<Tagged<'a>, Fault>
        ensures { TaggedRead least most self.entry.reader result }
    {
        let (set, rest) = self.set(least, most)?;
        let tags = rest.tags(set.len())?;
        Ok(Tagged { set, tags })
    }

    // Any set, and its boards' tags.
    pub(crate) fn tagged(self) -> Result<Tagged<'a>, Fault>
        ensures { TaggedRead 0 255 self.entry.reader result }
    {
        self.tagged_within(0, 255)
    }

    // A proof with its tags: no boards exactly if there is no earlier rank.
    // The highest rank is a number and no `Option`: 0 is the entries' own word for none, the format's rule for a proof speaks of it,
    // and a maximum over entries needs no case.
    pub(crate) fn proof(self, earlier: u8) -> Result<Tagged<'a>, Fault>
        ensures { ProofRead earlier self.entry.reader result }
    {
        if earlier == 0 {
            self.tagged_within(0, 0)
        } else {
            self.tagged_within(1, 255)
        }
    }

    // An entry and the tag that it precedes: no change without an earlier rank.
    pub(crate) fn answer(self) -> Reading<'a, Answer<'a>>
        ensures { AnswerRead self.entry.reader result }
    {
        let mut reader = self.reader;
        let earlier = reader.value(EARLIER)?;
        reader.value(ZERO)?;
        let change = reader.value(Field::entry_change(earlier))?;
        let (tag, rest) = Whole { reader }.bytes(8)?;
        let entry = Entry { earlier, change };
        Ok((Answer { entry, tag }, rest))
    }

    // As many entries as a set has boards, and the highest earlier rank among them.
    fn entries(self, n: u8) -> Reading<'a, (Entries<'a>, u8)>
        ensures { EntriesRead n self.entry.reader result }
    {
        let mut rest = self;
        let mut highest = 0;
        // A `for`: in a `try_fold` each turn would take a pair of reader and maximum apart and make it again.
        for _ in 0..n {
            let (answer, after) = rest.answer()?;
            highest = highest.max(answer.entry.earlier);
            rest = after;
        }
        let bytes = &self.reader.src[self.reader.byte..rest.reader.byte];
        Ok(((Entries::Heard(bytes), highest), rest))
    }

    // Any set, with its boards' entries, and the highest earlier rank among them.
    pub(crate) fn replies(self) -> Reading<'a, (Replies<'a>, u8)>
        ensures { RepliesRead self.entry.reader result }
    {
        let (set, rest) = self.set(0, 255)?;
        let ((entries, highest), rest) = rest.entries(set.len())?;
        Ok(((Replies { set, entries }, highest), rest))
    }
}
