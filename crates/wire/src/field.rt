// The fields of the format: how many bits each has, and the values that may stand in them.
// Table: docs/FRAMES.md, "Fields".
ghost use Rattle.std.specs.Prelude.{◌≡◌, ◌≤◌};
ghost use Rattle.grammar.specs.Grammar.{from_to};
ghost use Rattle.wire.specs.Fields.{most_change, shortest, longest};
ghost use Rattle.wire.specs.Messages.{sort_number};

use crate::message::Sort;

#[derive(Clone, Copy)]
pub struct Field {
    pub width: u8,
    pub least: u8,
    pub most: u8,
    ghost narrow: { (1 ≤ width) × (width ≤ 8) },
}

impl Field {
    // The same bits, with other values allowed. Its width is copied: a struct with a ghost field takes no `..self`.
    pub fn within(self, least: u8, most: u8) -> Field
        ensures { (result.width ≡ self.width) × (result.least ≡ least) × (result.most ≡ most) }
    {
        Field {
            width: self.width,
            least,
            most,
        }
    }

    // Whether a value may stand in it.
    pub fn allows(self, value: u8) -> bool
        ensures { result ≡ from_to self.least self.most value }
    {
        self.least <= value && value <= self.most
    }

    // How long a payload of a sort may be: an end has one byte.
    pub fn length(sort: Sort) -> Field
        ensures { (result.width ≡ 6) × (result.least ≡ shortest (sort_number sort)) × (result.most ≡ longest (sort_number sort)) }
    {
        match sort {
            Sort::Report => LENGTH,
            Sort::End => LENGTH.within(1, 1),
        }
    }

    // Which change an entry may have: none without an earlier rank.
    pub fn entry_change(earlier: u8) -> Field
        ensures { (result.width ≡ 3) × (result.least ≡ 0) × (result.most ≡ most_change earlier) }
    {
        CHANGE.within(0, if earlier == 0 { 0 } else { 7 })
    }
}

pub const KIND: Field = Field {
    width: 4,
    least: 1,
    most: 13,
};

pub const VIEW: Field = Field {
    width: 8,
    least: 1,
    most: 64,
};

pub const RANK: Field = Field {
    width: 4,
    least: 1,
    most: 8,
};

pub const CHANGE: Field = Field {
    width: 3,
    least: 0,
    most: 7,
};

pub const SENDER: Field = Field {
    width: 3,
    least: 0,
    most: 7,
};

pub const NUMBER: Field = Field {
    width: 8,
    least: 1,
    most: 255,
};

pub const SORT: Field = Field {
    width: 3,
    least: 0,
    most: 1,
};

pub const LENGTH: Field = Field {
    width: 6,
    least: 0,
    most: 48,
};

pub const ZERO: Field = Field {
    width: 1,
    least: 0,
    most: 0,
};

pub const ZEROS: Field = Field {
    width: 5,
    least: 0,
    most: 0,
};

pub const SET: Field = Field {
    width: 8,
    least: 0,
    most: 255,
};

// The earlier rank of an entry, 0 for none.
pub const EARLIER: Field = Field {
    width: 4,
    least: 0,
    most: 8,
};
