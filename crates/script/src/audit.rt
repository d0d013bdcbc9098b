// An audit: which boards' tags in a message are good and which are not, as the end of the line that shows the message.
// The texts: specs/Audits.antt.
ghost use Rattle.script.specs.Audits.{verdict_text, audit_text};

use crate::line::{Field, Text};
use crate::lists::Boards;
use boards::Set;
use std::alloc::AllocError;

// Boards by whether their tags are good.
#[derive(Clone, Copy, Debug, PartialEq, Eq)]
pub struct Verdict {
    pub good: Set,
    pub bad: Set,
}

// The boards that signed a message, and those of its proof where its kind has one.
#[derive(Clone, Copy, Debug, PartialEq, Eq)]
pub struct Audit {
    pub signers: Verdict,
    pub proof: Option<Verdict>,
}

// The good boards and the bad ones, each under a name.
#[derive(Clone, Copy)]
struct Judged<'a> {
    good: &'a str,
    bad: &'a str,
    verdict: Verdict,
}

impl Text for Judged<'_> {
    ghost text = { λ j. verdict_text j.good.now j.bad.now j.verdict };

    fn write(&self, line: &mut Vec<u8>) -> Result<(), AllocError> {
        (
            Field(self.good, Boards(self.verdict.good)),
            Field(self.bad, Boards(self.verdict.bad)),
        )
            .write(line)
    }
}

impl Text for Audit {
    ghost text = { audit_text };

    fn write(&self, line: &mut Vec<u8>) -> Result<(), AllocError> {
        let signers = Judged {
            good: "good",
            bad: "bad",
            verdict: self.signers,
        };
        let proof = self.proof.map(|verdict| Judged {
            good: "proofgood",
            bad: "proofbad",
            verdict,
        });
        (signers, proof).write(line)
    }
}
