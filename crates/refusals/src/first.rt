// Whether a call at a row goes on: the first reason of its list that holds refuses it.
// Order: docs/REFUSALS.md. Each list stands as one chain of tests, as it stands there; early returns would say no more.
ghost use Rattle.std.specs.Prelude.{◌≡◌};
ghost use Rattle.wire.specs.Messages.{meaning};
ghost use Rattle.row.specs.Refusals.{first_of, fit_reasons, seal_reasons, out_refusal, in_refusal, Unless};

use crate::kinds::answered;
use codes::Refusal;
use members::entries::split;
use members::group::{barred, stranger};
use members::ranks::inside;
use members::sizes::misfit;
use row::row::Row;
use row::state::ENOUGH;
use turns::{known, late, untimely};
use views::history::LAST;
use wire::message::Message;

// Whether a message is one that a row may take if its tags are good, or why not.
pub fn may_hear(row: &Row, m: &Message<'_>, room: usize) -> Result<(), Refusal>
    ensures { Unless (first_of (fit_reasons row.now.state (meaning m.now) room)) result }
{
    if room < ENOUGH {
        Err(Refusal::Out)
    } else if m.view != row.latest() {
        Err(Refusal::View)
    } else if stranger(row, m) {
        Err(Refusal::Member)
    } else if barred(row, m) {
        Err(Refusal::Change)
    } else if untimely(row, m) {
        Err(Refusal::Turn)
    } else if late(row, m) {
        Err(Refusal::Late)
    } else if known(row, m) {
        Err(Refusal::Known)
    } else if misfit(row, m) {
        Err(Refusal::Size)
    } else if split(m) {
        Err(Refusal::Split)
    } else {
        Ok(())
    }
}

// Whether such a message may be taken, or why not: `genuine` says whether every tag of it is good, `spent` whether the scheme is.
// A list of its own, since the tags cost the most and are looked at only where no reason before them holds.
pub fn may_trust(m: &Message<'_>, genuine: bool, spent: bool) -> Result<(), Refusal>
    ensures { Unless (first_of (seal_reasons (meaning m.now) genuine spent)) result }
{
    if !genuine {
        Err(Refusal::Tag)
    } else if answered(m) && spent {
        Err(Refusal::Spent)
    } else {
        Ok(())
    }
}

// Whether a row may ask for board c to leave, or why not: c is another member.
pub fn may_ask_out(row: &Row, c: u8, room: usize, spent: bool) -> Result<(), Refusal>
    ensures { Unless (out_refusal row.now.state c room spent) result }
{
    if c > 7 {
        Err(Refusal::Board)
    } else if room < ENOUGH {
        Err(Refusal::Out)
    } else if !inside(row) {
        Err(Refusal::Member)
    } else if row.latest() >= LAST || !row.view().has(c) || c == row.board() {
        Err(Refusal::Change)
    } else if spent {
        Err(Refusal::Spent)
    } else {
        Ok(())
    }
}

// Whether a row may ask for board c to join, or why not: c is no member, the delivery view is the latest, and the manager is not suspect.
pub fn may_ask_in(
    row: &Row,
    c: u8,
    delivery: Option<u8>,
    room: usize,
    spent: bool,
) -> Result<(), Refusal>
    ensures { Unless (in_refusal row.now.state c delivery room spent) result }
{
    if c > 7 {
        Err(Refusal::Board)
    } else if room < ENOUGH {
        Err(Refusal::Out)
    } else if !inside(row) {
        Err(Refusal::Member)
    } else if row.latest() >= LAST || row.view().has(c) {
        Err(Refusal::Change)
    } else if delivery != Some(row.latest()) || row.state.voter.suspects.has(row.manager()) {
        Err(Refusal::Turn)
    } else if spent {
        Err(Refusal::Spent)
    } else {
        Ok(())
    }
}
