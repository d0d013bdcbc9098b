// Answers as lines: a message that was heard, keys that are kept, a view of a group, a refusal, or what is wrong with the line of the script.
// The texts: specs/Outcomes.antt.
ghost use Rattle.std.specs.Prelude.{◌≡◌, Some};
ghost use Rattle.script.specs.Lines.{Adds};
ghost use Rattle.script.specs.Outcomes.{reason_text, fault_text, refusal_text, answer_text, answer_line, tally_line};

use crate::audit::Audit;
use crate::group::Group;
use crate::line::Text;
use crate::tally::Tally;
use codes::Refusal;
use grammar::fault::Fault;
use std::alloc::AllocError;
use wire::message::Message;

// What is wrong with a line of the script.
#[derive(Clone, Copy, Debug, PartialEq, Eq)]
pub enum Reason {
    NotText,
    UnknownCall,
    TooFewWords,
    TooManyWords,
    NotHexadecimal,
    OddDigits,
    NotEightKeys,
    NotDigits,
}

// What a line of the script is answered. No Result: three kinds of answers are counted apart, and none of them is passed on by `?`.
#[derive(Clone, Copy)]
pub enum Answer<'a> {
    Heard(Message<'a>, Option<Audit>),
    Kept,
    Viewed(Group),
    Refused(Refusal),
    Wrong(Reason),
}

// What a call of several lines answers: the text with all of them but the last, which is still to be added, and to be counted.
#[derive(Drop)]
pub struct Answered<'a> {
    pub text: Vec<u8>,
    pub last: Answer<'a>,
}

impl Reason {
    // The reason in plain words; by the trait `Text` alone it is ever written.
    fn name(self) -> &'static str
        ensures { result.now ≡ reason_text self }
    {
        match self {
            Reason::NotText => "not text",
            Reason::UnknownCall => "unknown call",
            Reason::TooFewWords => "too few words",
            Reason::TooManyWords => "too many words",
            Reason::NotHexadecimal => "not hexadecimal",
            Reason::OddDigits => "odd number of digits",
            Reason::NotEightKeys => "not 256 digits",
            Reason::NotDigits => "not digits",
        }
    }
}

// A fault: its layer and its place.
impl Text for Fault {
    ghost text = { λ f. fault_text (Some f) };

    fn write(&self, line: &mut Vec<u8>) -> Result<(), AllocError> {
        (" ", (self.layer.name(), (" ", self.place as u64))).write(line)
    }
}

// A refusal: number and name of its code, and the fault that it tells.
impl Text for Refusal {
    ghost text = { refusal_text };

    fn write(&self, line: &mut Vec<u8>) -> Result<(), AllocError> {
        (u8::from(*self), (" ", (self.name(), self.fault()))).write(line)
    }
}

impl Text for Answer<'_> {
    ghost text = { answer_text };

    fn write(&self, line: &mut Vec<u8>) -> Result<(), AllocError> {
        match *self {
            Answer::Heard(message, audit) => (message, audit).write(line),
            Answer::Kept => "ok".write(line),
            Answer::Viewed(group) => group.write(line),
            Answer::Refused(refusal) => ("refused ", refusal).write(line),
            Answer::Wrong(reason) => ("error ", reason.name()).write(line),
        }
    }
}

impl Text for Tally {
    ghost text = { tally_line };

    fn write(&self, line: &mut Vec<u8>) -> Result<(), AllocError> {
        let counts = (
            self.ok,
            (
                " ok, ",
                (self.refused, (" refused, ", (self.wrong, " error\n"))),
            ),
        );
        (self.calls(), (" calls: ", counts)).write(line)
    }
}

// Adds the line of an answer to bytes.
pub fn answer_line(mut out: Vec<u8>, number: u64, answer: Answer<'_>) -> Result<Vec<u8>, AllocError>
    ensures { Adds out (answer_line number answer.entry) result }
{
    (number, (" ", (answer, "\n"))).write(&mut out)?;
    Ok(out)
}

// Adds the last line of a script to bytes.
pub fn tally_line(mut out: Vec<u8>, tally: Tally) -> Result<Vec<u8>, AllocError>
    ensures { Adds out (tally_line tally) result }
{
    tally.write(&mut out)?;
    Ok(out)
}
