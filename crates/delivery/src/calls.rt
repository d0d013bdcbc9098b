// The calls of a board: each answers the first reason against it and changes nothing, or does what the rules say.
// Rules: docs/RULES.md, "Reports and closings". What each call promises: specs/Calls.antt.
ghost use Rattle.std.specs.Prelude.{◌≡◌, option_map};
ghost use Rattle.wire.specs.Messages.{meaning};
ghost use Rattle.wire.specs.Format.{Formed};
ghost use Rattle.delivery.specs.Reports.{content};
ghost use Rattle.delivery.specs.Effects.{finish_claim, followed};
ghost use Rattle.delivery.specs.Calls.{Finishes, HeardAny, Hears, of_reports, Sends, Takes};
ghost use Rattle.delivery.specs.Plain.{plain, plain_content, plain_record, SaysDelivered, sent_in};

use crate::content::Content;
use crate::endings::left_out;
use crate::reports::{Heard, Record, Reports};
use codes::Refusal;
use row::row::Row;
use row::state::Sent;
use schemes::Scheme;
use sending::is_formed;
use wire::message::{Body, Message, Sort};

// Whether a message is of this layer: kinds 11 to 13.
fn of_reports(m: &Message<'_>) -> bool
    ensures { result ≡ of_reports (meaning m.now) }
{
    matches!(
        m.body,
        Body::Init { .. } | Body::Echo { .. } | Body::Commit { .. }
    )
}

impl Reports {
    // Sends a report of at most 48 bytes to the members of the delivery view: the init of its next number. Answers to whom and how many bytes, or the first reason against it.
    pub fn send<S: Scheme>(
        &mut self,
        row: &Row,
        scheme: &mut S,
        payload: &[u8],
        out: &mut [u8],
    ) -> Result<Sent, Refusal>
        ensures { Sends S.Scheme row.now.state (plain self.old) scheme.old payload.now out.old result (plain self.new) scheme.new out.new }
    {
        self.may_send(row, payload.len(), out.len(), scheme.is_spent())?;
        let report = Content::of(Sort::Report, payload);
        Ok(self.send_own(row, scheme, report, out))
    }

    // The claim of the board's end: how many it delivered of the board that the next view leaves out; 0 if there is none.
    fn finish_claim(&self, row: &Row) -> u8
        ensures { result ≡ finish_claim row.now.state (plain self.now) }
    {
        left_out(&row.views(), self.now()).map_or(0, |r| self.count(r))
    }

    // Sends the board's end in a delivery view that the next one follows. Answers as send does.
    pub fn finish<S: Scheme>(
        &mut self,
        row: &Row,
        scheme: &mut S,
        out: &mut [u8],
    ) -> Result<Sent, Refusal>
        ensures { Finishes S.Scheme row.now.state (plain self.old) scheme.old out.old result (plain self.new) scheme.new out.new }
    {
        self.may_finish(row, out.len(), scheme.is_spent())?;
        let end = Content::of(Sort::End, &[self.finish_claim(row)]);
        Ok(self.send_own(row, scheme, end, out))
    }

    // What a formed message of kinds 11 to 13 does: the first reason against it, or what the rules say.
    fn judge<S: Scheme>(
        &mut self,
        row: &Row,
        scheme: &mut S,
        m: &Message<'_>,
        out: &mut [u8],
    ) -> Result<Heard, Refusal>
        requires { Formed (meaning m.now) }
        ensures does { Hears S.Scheme row.now.state (plain self.old) scheme.old (meaning m.now) out.old (sent_in result) (plain self.new) scheme.new out.new }
        ensures says { SaysDelivered (meaning m.now) (Some result) }
    {
        self.may_hear(row, scheme, m, out.len())?;
        Ok(self.accept(row, scheme, m, out))
    }

    // Hears a message of kinds 11 to 13: an init is echoed, an echo collected, a commit delivered. One of another layer, and a value that no bytes spell, has no answer here
    // and changes nothing. So an `Option` of the `Result`: no answer is neither a reason against the message nor something sent.
    pub fn hear<S: Scheme>(
        &mut self,
        row: &Row,
        scheme: &mut S,
        m: &Message<'_>,
        out: &mut [u8],
    ) -> Option<Result<Heard, Refusal>>
        ensures does { HeardAny S.Scheme row.now.state (plain self.old) scheme.old (meaning m.now) out.old (option_map sent_in result) (plain self.new) scheme.new out.new }
        ensures says { SaysDelivered (meaning m.now) result }
    {
        if is_formed(m) && of_reports(m) {
            Some(self.judge(row, scheme, m, out))
        } else {
            None
        }
    }

    // Takes the record that is out; zeros if none is. Then none is out.
    pub fn take(&mut self) -> Record
        ensures { Takes (plain self.old) (plain_record result) (plain self.new) }
    {
        let out = self.out;
        self.out = None;
        match out {
            None => Record::none(),
            Some(record) => record,
        }
    }

    // Follows a call of the membership layer at the board's row, whose latest view was this one before it: where the call made the next view, the board may be done with its delivery view.
    pub fn follow(&mut self, latest: u8, row: &Row)
        ensures { plain self.new ≡ followed latest row.now.state (plain self.old) }
    {
        if row.latest() != latest {
            self.settle(row);
        }
    }
}
