// The kinds of messages, by their numbers on the backplane.
// Numbers and names: docs/FRAMES.md, "Kinds"; formal text: specs/Kinds.antt.
ghost use Rattle.std.specs.Prelude.{◌≡◌, Some};
ghost use Rattle.wire.specs.Kinds.{kind_name, KindNumbered};

use std::fmt;

#[derive(Clone, Copy, Debug, PartialEq, Eq)]
pub enum Kind {
    Notify = 1,
    Suggest = 2,
    Ack = 3,
    Proposal = 4,
    Ready = 5,
    Change = 6,
    Deputy = 7,
    Query = 8,
    Last = 9,
    SuggestLast = 10,
    Init = 11,
    Echo = 12,
    Commit = 13,
}

// A number that no kind has, or no sort.
#[derive(Clone, Copy, Debug, PartialEq, Eq)]
pub struct Unknown(pub u8);

impl TryFrom<u8> for Kind {
    type Error = Unknown;

    ghost try_from_gives = { KindNumbered };

    fn try_from(number: u8) -> Result<Kind, Unknown> {
        match number {
            1 => Ok(Kind::Notify),
            2 => Ok(Kind::Suggest),
            3 => Ok(Kind::Ack),
            4 => Ok(Kind::Proposal),
            5 => Ok(Kind::Ready),
            6 => Ok(Kind::Change),
            7 => Ok(Kind::Deputy),
            8 => Ok(Kind::Query),
            9 => Ok(Kind::Last),
            10 => Ok(Kind::SuggestLast),
            11 => Ok(Kind::Init),
            12 => Ok(Kind::Echo),
            13 => Ok(Kind::Commit),
            _ => Err(Unknown(number)),
        }
    }
}

impl Kind {
    // Its name, for whoever writes it without a formatter, as who writes to bytes and has to know that nothing but memory can be wanting.
    pub fn name(self) -> &'static str
        ensures { result.now ≡ kind_name self }
    {
        match self {
            Kind::Notify => "notify",
            Kind::Suggest => "suggest",
            Kind::Ack => "ack",
            Kind::Proposal => "proposal",
            Kind::Ready => "ready",
            Kind::Change => "change",
            Kind::Deputy => "deputy",
            Kind::Query => "query",
            Kind::Last => "last",
            Kind::SuggestLast => "suggest-last",
            Kind::Init => "init",
            Kind::Echo => "echo",
            Kind::Commit => "commit",
        }
    }
}

impl fmt::Display for Kind {
    ghost output = { λ k. Some (kind_name k) };

    fn fmt<W: fmt::Write>(&self, f: &mut fmt::Formatter<W>) -> fmt::Result {
        f.write_str(self.name())
    }
}
