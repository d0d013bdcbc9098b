// What stands under a number: a report, or an end, the sender's last in a view, whose one byte is its claim.
// Rules: docs/RULES.md, "Reports and closings".
ghost use Rattle.std.specs.Prelude.{◌≡◌, ◌≤◌, length};
ghost use Rattle.delivery.specs.Reports.{claim, content, same_content};
ghost use Rattle.delivery.specs.Plain.{plain_content};

use bounded::Bytes;
use wire::message::{Content as Carried, Sort};

// The longest payload, in bytes.
pub const LONGEST: usize = 48;

#[derive(Clone, Copy)]
pub struct Content {
    pub sort: Sort,
    pub payload: Bytes<48>,
}

impl Content {
    // A content of at most 48 bytes.
    pub(crate) fn of(sort: Sort, payload: &[u8]) -> Content
        requires { length payload.now ≤ 48 }
        ensures { plain_content result ≡ content sort payload.now }
    {
        Content {
            sort,
            payload: Bytes::of(payload).unwrap(),
        }
    }

    // As a message carries it, under a sender and a number.
    pub(crate) fn carried(&self, sender: u8, number: u8) -> Carried<'_>
        ensures head { (result.sender ≡ sender) × (result.number ≡ number) }
        ensures is { content result.sort result.payload.now ≡ plain_content self.now }
    {
        Carried {
            sender,
            number,
            sort: self.sort,
            payload: self.payload.as_slice(),
        }
    }

    // Whether it is of this sort and has just these bytes.
    pub(crate) fn is(&self, sort: Sort, payload: &[u8]) -> bool
        ensures { result ≡ same_content (plain_content self.now) (content sort payload.now) }
    {
        self.sort == sort && self.payload.as_slice() == payload
    }

    // The claim of an end; none of a report.
    pub(crate) fn claim(&self) -> Option<u8>
        ensures { result ≡ claim (plain_content self.now) }
    {
        match self.sort {
            Sort::Report => None,
            Sort::End => Some(self.payload.as_slice().first().copied().unwrap_or(0)),
        }
    }
}
