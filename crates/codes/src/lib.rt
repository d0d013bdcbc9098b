// Why a call is refused: seventeen codes with their numbers and names, and what FORM tells beside them.
// Table: docs/REFUSALS.md. What number and name each code has is specs/Codes.antt.
#![tactic(auto)]

ghost use Rattle.std.specs.Prelude.{◌≡◌, Some};
ghost use Rattle.codes.specs.declared.Refusal.TheVariants.{Form};
ghost use Rattle.codes.specs.Codes.{number_of, name_of, fault_of};

use grammar::fault::Fault;
use std::fmt;

#[derive(Clone, Copy, Debug, PartialEq, Eq)]
pub enum Refusal {
    Board,
    Row,
    Out,
    Long,
    Form(Fault),
    View,
    Member,
    Change,
    Turn,
    Late,
    Order,
    Known,
    Double,
    Size,
    Split,
    Tag,
    Spent,
}

impl Refusal {
    // The name of the code, in capitals, for whoever writes it without a formatter.
    pub fn name(self) -> &'static str
        ensures { result.now ≡ name_of self }
    {
        match self {
            Refusal::Board => "BOARD",
            Refusal::Row => "ROW",
            Refusal::Out => "OUT",
            Refusal::Long => "LONG",
            Refusal::Form(_) => "FORM",
            Refusal::View => "VIEW",
            Refusal::Member => "MEMBER",
            Refusal::Change => "CHANGE",
            Refusal::Turn => "TURN",
            Refusal::Late => "LATE",
            Refusal::Order => "ORDER",
            Refusal::Known => "KNOWN",
            Refusal::Double => "DOUBLE",
            Refusal::Size => "SIZE",
            Refusal::Split => "SPLIT",
            Refusal::Tag => "TAG",
            Refusal::Spent => "SPENT",
        }
    }

    // The fault that FORM tells; no other code tells one.
    pub fn fault(self) -> Option<Fault>
        ensures { result ≡ fault_of self }
    {
        match self {
            Refusal::Form(fault) => Some(fault),
            _ => None,
        }
    }
}

// The number of a code, 1 to 17. Written out: FORM carries a fault, and a cast gives numbers only where no code carries anything.
impl From<Refusal> for u8 {
    ghost from_gives = { λ r n. n ≡ number_of r };

    fn from(refusal: Refusal) -> u8 {
        match refusal {
            Refusal::Board => 1,
            Refusal::Row => 2,
            Refusal::Out => 3,
            Refusal::Long => 4,
            Refusal::Form(_) => 5,
            Refusal::View => 6,
            Refusal::Member => 7,
            Refusal::Change => 8,
            Refusal::Turn => 9,
            Refusal::Late => 10,
            Refusal::Order => 11,
            Refusal::Known => 12,
            Refusal::Double => 13,
            Refusal::Size => 14,
            Refusal::Split => 15,
            Refusal::Tag => 16,
            Refusal::Spent => 17,
        }
    }
}

impl fmt::Display for Refusal {
    ghost output = { λ r. Some (name_of r) };

    fn fmt<W: fmt::Write>(&self, f: &mut fmt::Formatter<W>) -> fmt::Result {
        f.write_str(self.name())
    }
}

// Bytes that are no message are refused by FORM, with the fault as it was found.
impl From<Fault> for Refusal {
    ghost from_gives = { λ f r. r ≡ Form f };

    fn from(f: Fault) -> Refusal {
        Refusal::Form(f)
    }
}
