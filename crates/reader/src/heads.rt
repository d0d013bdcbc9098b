// The rest of a head, behind kind and view: it begins between the halves of a byte and ends between two bytes.
// Format: docs/FRAMES.md, "Kinds".
ghost use Rattle.reader.specs.Parts.{ChangeRead, RankRead, GradedRead, CarriedRead};

use crate::place::{Half, Reading, Whole};
use wire::field::{CHANGE, Field, NUMBER, RANK, SENDER, SORT, ZERO, ZEROS};
use wire::message::{Content, Sort};

// What kinds 3 to 6 speak of.
// A struct and no pair, whose halves are of one type; what a row keeps of a proposal is the row's, a layer above.
#[derive(Clone, Copy)]
pub struct Graded {
    pub rank: u8,
    pub change: u8,
}

impl<'a> Half<'a> {
    // The change, in kinds 1 and 2.
    pub(crate) fn change(self) -> Reading<'a, u8>
        ensures { ChangeRead self.entry.reader result }
    {
        let mut reader = self.reader;
        reader.value(ZERO)?;
        let change = reader.value(CHANGE)?;
        Ok((change, Whole { reader }))
    }

    // Rank and change, in kinds 3 to 6.
    pub(crate) fn graded(self) -> Reading<'a, Graded>
        ensures { GradedRead self.entry.reader result }
    {
        let mut reader = self.reader;
        let rank = reader.value(RANK)?;
        reader.value(ZEROS)?;
        let change = reader.value(CHANGE)?;
        Ok((Graded { rank, change }, Whole { reader }))
    }

    // The rank, in kinds 7 to 10.
    pub(crate) fn rank(self) -> Reading<'a, u8>
        ensures { RankRead self.entry.reader result }
    {
        let mut reader = self.reader;
        let rank = reader.value(RANK)?;
        Ok((rank, Whole { reader }))
    }

    // What kinds 11 to 13 carry.
    pub(crate) fn carried(self) -> Reading<'a, Content<'a>>
        ensures { CarriedRead self.entry.reader result }
    {
        let mut reader = self.reader;
        let sender = reader.value(SENDER)?;
        let number = reader.value(NUMBER)?;
        // The field of sorts has no number but those of sorts.
        let sort = Sort::try_from(reader.value(SORT)?).unwrap();
        let length = reader.value(Field::length(sort))?;
        let (payload, rest) = Whole { reader }.bytes(usize::from(length))?;
        let content = Content {
            sender,
            number,
            sort,
            payload,
        };
        Ok((content, rest))
    }
}
