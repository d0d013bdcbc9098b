// The stories, each a test: who is asked out or in, who leads, and to which view all rows come.
// Rules: docs/RULES.md, "Changing the group".
use crate::bench::{Bench, Frame, rows};
use boards::Set;
use codes::Refusal;
use schemes::register::Entry;
use std::process::Abort;
use std::test::Fail;
use wire::kind::Kind;

// Boards 0 to 4: a fault is tolerated, two are more than can be faulty, four are a quorum. Board 4 manages, board 3 is the next deputy.
const FIVE: Set = Set { bits: 0b1111_1000 };

// A frame is of this kind and goes to these boards.
fn is_to(rt: &impl Abort, frame: &Frame, kind: Kind, to: Set) {
    assert_eq!(rt; frame.kind(), Some(kind));
    assert_eq!(rt; frame.to, to);
}

// Boards 0 and 1 ask board 2 out, and the manager suggests it.
fn suggested(rt: &impl Abort, bench: &mut Bench<'_>) -> Result<Frame, Fail> {
    let first = bench.ask_out(0, 2)?;
    is_to(rt, &first, Kind::Notify, Set::only(4));
    let second = bench.ask_out(1, 2)?;
    assert!(rt; bench.hear(4, &first)?.to.is_empty());
    assert_eq!(rt; bench.hear(4, &first).err(), Some(Refusal::Known));
    let suggest = bench.hear(4, &second)?;
    is_to(rt, &suggest, Kind::Suggest, FIVE);
    Ok(suggest)
}

// Boards 1 and 3 ask the manager out, and the deputy queries.
fn queried(rt: &impl Abort, bench: &mut Bench<'_>) -> Result<Frame, Fail> {
    let first = bench.ask_out(1, 4)?;
    is_to(rt, &first, Kind::Deputy, Set::only(3));
    let second = bench.ask_out(3, 4)?;
    is_to(rt, &second, Kind::Deputy, Set::only(3));
    assert!(rt; bench.hear(3, &first)?.to.is_empty());
    let query = bench.hear(3, &second)?;
    is_to(rt, &query, Kind::Query, FIVE);
    Ok(query)
}

// The manager leads a change, and who acked it answers no suggest again.
#[test]
fn manager_leads(rt: HostRuntime) -> Result<(), Fail> {
    let mut memory = [Entry::blank(); 12];
    let mut bench = Bench::new(rows(FIVE)?, &mut memory);
    let suggest = suggested(&rt, &mut bench)?;
    let change = bench.led(&rt, 4, &suggest)?;
    assert_eq!(rt; bench.hear(0, &suggest).err(), Some(Refusal::Late));
    bench.enact(&rt, &change, 2, FIVE.without(2))
}

// One board heard the manager's proposal, so the deputy's change is that one, and the manager stays.
#[test]
fn deputy_finishes_a_kept_proposal(rt: HostRuntime) -> Result<(), Fail> {
    let mut memory = [Entry::blank(); 32];
    let mut bench = Bench::new(rows(FIVE)?, &mut memory);
    let suggest = suggested(&rt, &mut bench)?;
    let proposal = bench.round(&rt, 4, &suggest)?;
    let ready = bench.hear(0, &proposal)?;
    is_to(&rt, &ready, Kind::Ready, Set::only(4));
    let query = queried(&rt, &mut bench)?;
    let again = bench.round(&rt, 3, &query)?;
    is_to(&rt, &again, Kind::SuggestLast, FIVE);
    assert_eq!(rt; again.proof(), Some(FIVE.without(4)));
    assert_eq!(rt; bench.hear(1, &proposal).err(), Some(Refusal::Late));
    let change = bench.led(&rt, 3, &again)?;
    bench.enact(&rt, &change, 2, FIVE.without(2))
}

// No board keeps a proposal, so the change is the manager, which hears of it only at the end.
#[test]
fn deputy_removes_a_silent_manager(rt: HostRuntime) -> Result<(), Fail> {
    let mut memory = [Entry::blank(); 16];
    let mut bench = Bench::new(rows(FIVE)?, &mut memory);
    bench.quiet = Set::only(4);
    let query = queried(&rt, &mut bench)?;
    let suggest = bench.round(&rt, 3, &query)?;
    is_to(&rt, &suggest, Kind::SuggestLast, FIVE);
    assert_eq!(rt; suggest.proof(), None);
    let change = bench.led(&rt, 3, &suggest)?;
    bench.enact(&rt, &change, 2, FIVE.without(4))
}

// A board joins, asked in by two that deliver in the latest view and trust the manager; the newcomer manages then.
#[test]
fn board_joins(rt: HostRuntime) -> Result<(), Fail> {
    let mut memory = [Entry::blank(); 16];
    let mut bench = Bench::new(rows(FIVE)?, &mut memory);
    assert_eq!(rt; bench.ask_in(0, 6, None).err(), Some(Refusal::Turn));
    assert_eq!(rt; bench.ask_in(0, 3, Some(1)).err(), Some(Refusal::Change));
    assert_eq!(rt; bench.ask_in(6, 7, Some(1)).err(), Some(Refusal::Member));
    bench.ask_out(2, 4)?;
    assert_eq!(rt; bench.ask_in(2, 6, Some(1)).err(), Some(Refusal::Turn));
    let first = bench.ask_in(0, 6, Some(1))?;
    is_to(&rt, &first, Kind::Notify, Set::only(4));
    let second = bench.ask_in(1, 6, Some(1))?;
    assert!(rt; bench.hear(4, &first)?.to.is_empty());
    let suggest = bench.hear(4, &second)?;
    is_to(&rt, &suggest, Kind::Suggest, FIVE);
    let change = bench.led(&rt, 4, &suggest)?;
    bench.enact(&rt, &change, 2, FIVE.with(6))?;
    let next = bench.ask_out(0, 2)?;
    is_to(&rt, &next, Kind::Notify, Set::only(6));
    Ok(())
}

// A board alone is its own quorum: it signs three times, and the register has no room for a fourth.
#[test]
fn one_takes_in_a_second(rt: HostRuntime) -> Result<(), Fail> {
    let mut memory = [Entry::blank(); 3];
    let mut bench = Bench::new(rows(Set::only(3))?, &mut memory);
    let notify = bench.ask_in(3, 0, Some(1))?;
    is_to(&rt, &notify, Kind::Notify, Set::only(3));
    let suggest = bench.hear(3, &notify)?;
    is_to(&rt, &suggest, Kind::Suggest, Set::only(3));
    assert_eq!(rt; bench.hear(3, &notify).err(), Some(Refusal::Turn));
    let change = bench.led(&rt, 3, &suggest)?;
    bench.enact(&rt, &change, 2, Set::only(0).with(3))?;
    assert_eq!(rt; bench.ask_out(3, 0).err(), Some(Refusal::Spent));
    Ok(())
}

// A change passed on: by a member to the two ranks after its own, counted round, and to all outside; by the board that leaves too.
// An outsider passes nothing. What was passed on is the change as heard, for a board that missed it; for the others it is of another view.
#[test]
fn change_is_passed_on(rt: HostRuntime) -> Result<(), Fail> {
    let mut memory = [Entry::blank(); 12];
    let mut bench = Bench::new(rows(FIVE)?, &mut memory);
    let suggest = suggested(&rt, &mut bench)?;
    let change = bench.led(&rt, 4, &suggest)?;
    let outside = Set::ALL.minus(FIVE);
    let passed = bench.hear(0, &change)?;
    is_to(&rt, &passed, Kind::Change, outside.with(1).with(2));
    is_to(
        &rt,
        &bench.hear(4, &change)?,
        Kind::Change,
        outside.with(0).with(1),
    );
    is_to(
        &rt,
        &bench.hear(2, &passed)?,
        Kind::Change,
        outside.with(3).with(4),
    );
    assert!(rt; bench.hear(5, &passed)?.to.is_empty());
    for board in [0, 2, 4, 5] {
        assert_eq!(rt; bench.hear(board, &passed).err(), Some(Refusal::View));
        assert_eq!(rt; bench.members(board, 2), FIVE.without(2));
    }
    assert_eq!(rt; bench.ask_out(2, 0).err(), Some(Refusal::Member));
    Ok(())
}

// Board 7 takes board 0 in and lets it go, in turn, until the last view, which no change leaves.
#[test]
fn views_end_at_64(rt: HostRuntime) -> Result<(), Fail> {
    let alone = Set::only(7);
    let both = alone.with(0);
    let mut memory = [Entry::blank(); 256];
    let mut bench = Bench::new(rows(alone)?, &mut memory);
    for view in 1..64 {
        let joins = view % 2 == 1;
        let notify = if joins {
            bench.ask_in(7, 0, Some(view))?
        } else {
            bench.ask_out(7, 0)?
        };
        let suggest = bench.hear(7, &notify)?;
        let change = bench.led(&rt, 7, &suggest)?;
        bench.enact(&rt, &change, view + 1, if joins { both } else { alone })?;
    }
    assert_eq!(rt; bench.ask_out(7, 0).err(), Some(Refusal::Change));
    assert_eq!(rt; bench.ask_in(7, 1, Some(64)).err(), Some(Refusal::Change));
    Ok(())
}
