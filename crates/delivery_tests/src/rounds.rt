// Stories of reports, each a test: who sends, who echoes, what a commit delivers where.
// Rules: docs/RULES.md, "Reports and closings".
use crate::bench::{Bench, FIVE, Frame, Said, end, gathered, report, seats};
use boards::Set;
use codes::Refusal;
use schemes::Scheme;
use schemes::keyed::{Keyed, Keys};
use schemes::register::{Entry, Register};
use std::process::Abort;
use std::test::Fail;

// A key for each board.
const KEYS: Keys = [
    [0; 16], [1; 16], [2; 16], [3; 16], [4; 16], [5; 16], [6; 16], [7; 16],
];

// Board 0 sends a report, the fourth echo makes the commit, and five boards deliver it. It sends the next once it delivered the first itself, taken or not;
// the others echo the next only then too.
fn through_five<S: Scheme>(rt: &impl Abort, bench: &mut Bench<S>) -> Result<(), Fail> {
    let said = report(1, 0, 1, b"ready");
    let init = bench.send(rt, 0, b"ready")?;
    init.is_init(rt, said, FIVE);
    assert_eq!(rt; bench.send(rt, 0, b"steady").err(), Some(Refusal::Turn));
    let echoes = [
        bench.hear(rt, 0, &init)?,
        bench.hear(rt, 1, &init)?,
        bench.hear(rt, 2, &init)?,
        bench.hear(rt, 3, &init)?,
        bench.hear(rt, 4, &init)?,
    ];
    for (board, echo) in (0..5).zip(&echoes) {
        echo.is_echo(rt, said, board);
    }
    let [first, second, third, fourth, fifth] = &echoes;
    bench.hear(rt, 0, first)?.is_nothing(rt);
    bench.hear(rt, 0, second)?.is_nothing(rt);
    bench.hear(rt, 0, third)?.is_nothing(rt);
    let commit = bench.hear(rt, 0, fourth)?;
    commit.is_commit(rt, said, FIVE.without(4), FIVE);
    assert_eq!(rt; bench.hear(rt, 0, fifth).err(), Some(Refusal::Turn));
    assert_eq!(rt; bench.send(rt, 0, b"steady").err(), Some(Refusal::Turn));
    to_the_next(rt, bench, said, &commit)
}

// The sender delivers it first, and sends the next.
fn to_the_next<S: Scheme>(
    rt: &impl Abort,
    bench: &mut Bench<S>,
    said: Said<'_>,
    commit: &Frame,
) -> Result<(), Fail> {
    bench.hear(rt, 0, commit)?.is_nothing(rt);
    let next = bench.send(rt, 0, b"")?;
    next.is_init(rt, report(1, 0, 2, b""), FIVE);
    assert_eq!(rt; bench.hear(rt, 4, &next).err(), Some(Refusal::Order));
    for board in 1..5 {
        assert_eq!(rt; bench.counts(board), [0; 8]);
        assert!(rt; !bench.is_out(board));
        bench.hear(rt, board, commit)?.is_nothing(rt);
    }
    for board in FIVE.boards() {
        assert_eq!(rt; bench.counts(board), [1, 0, 0, 0, 0, 0, 0, 0]);
        bench.takes(rt, board, said)?;
    }
    bench
        .hear(rt, 4, &next)?
        .is_echo(rt, report(1, 0, 2, b""), 4);
    Ok(())
}

#[test]
fn five_deliver_a_report(rt: HostRuntime) -> Result<(), Fail> {
    let mut memory = [Entry::blank(); 8];
    let mut bench = Bench::new(seats(FIVE)?, Register::new(&mut memory));
    through_five(&rt, &mut bench)
}

#[test]
fn five_deliver_a_report_under_keys(rt: HostRuntime) -> Result<(), Fail> {
    let mut bench = Bench::new(seats(FIVE)?, Keyed::new(&KEYS));
    through_five(&rt, &mut bench)
}

// Board 2 is faulty and tells board 4 another report under its first number, and signs echoes of both. The first is committed, by three boards and itself; the other has two echoes.
// Who echoed the other delivers the first all the same.
#[test]
fn two_faced_sender(rt: HostRuntime) -> Result<(), Fail> {
    let mut memory = [Entry::blank(); 32];
    let mut bench = Bench::new(seats(FIVE)?, Register::new(&mut memory));
    let open = report(1, 2, 1, b"open");
    let shut = report(1, 2, 1, b"shut");
    let init = bench.signs_init(&rt, open, FIVE)?;
    let other = bench.signs_init(&rt, shut, FIVE)?;
    let by = [
        bench.hear(&rt, 0, &init)?,
        bench.hear(&rt, 1, &init)?,
        bench.signs_echo(&rt, 2, open)?,
        bench.hear(&rt, 3, &init)?,
    ];
    let by_two = [bench.hear(&rt, 4, &other)?, bench.signs_echo(&rt, 2, shut)?];
    assert_eq!(rt; bench.hear(&rt, 0, &other).err(), Some(Refusal::Double));
    assert_eq!(rt; bench.hear(&rt, 4, &init).err(), Some(Refusal::Double));
    bench.hear(&rt, 0, &init)?.is_echo(&rt, open, 0);
    bench.hear(&rt, 4, &other)?.is_echo(&rt, shut, 4);

    // Of five boards four are a quorum. Tags of an echo are good for no other report.
    let three = gathered(&rt, open, &by[..3], FIVE)?;
    let two = gathered(&rt, shut, &by_two, FIVE)?;
    let mixed = gathered(&rt, shut, &by, FIVE)?;
    let commit = gathered(&rt, open, &by, FIVE)?;
    assert_eq!(rt; bench.hear(&rt, 4, &three).err(), Some(Refusal::Size));
    assert_eq!(rt; bench.hear(&rt, 4, &two).err(), Some(Refusal::Size));
    assert_eq!(rt; bench.hear(&rt, 4, &mixed).err(), Some(Refusal::Tag));
    assert_eq!(rt; bench.counts(4), [0; 8]);
    for board in FIVE.without(2).boards() {
        delivers_the_first(&rt, &mut bench, board, &commit, &other)?;
    }
    echoed_anew(&rt, &mut bench)
}

// A board delivers the first content, once, and then echoes neither.
fn delivers_the_first<S: Scheme>(
    rt: &impl Abort,
    bench: &mut Bench<S>,
    board: u8,
    commit: &Frame,
    other: &Frame,
) -> Result<(), Fail> {
    bench.hear(rt, board, commit)?.is_nothing(rt);
    assert_eq!(rt; bench.counts(board), [0, 0, 1, 0, 0, 0, 0, 0]);
    assert_eq!(rt; bench.hear(rt, board, commit).err(), Some(Refusal::Turn));
    bench.takes(rt, board, report(1, 2, 1, b"open"))?;
    assert_eq!(rt; bench.hear(rt, board, commit).err(), Some(Refusal::Order));
    assert_eq!(rt; bench.hear(rt, board, other).err(), Some(Refusal::Order));
    Ok(())
}

// What was echoed is forgotten with the delivery. Another sort is another content too.
fn echoed_anew<S: Scheme>(rt: &impl Abort, bench: &mut Bench<S>) -> Result<(), Fail> {
    let said = report(1, 2, 2, b"x");
    let next = bench.signs_init(rt, said, FIVE)?;
    let as_end = bench.signs_init(rt, end(1, 2, 2, b"x"), FIVE)?;
    bench.hear(rt, 4, &next)?.is_echo(rt, said, 4);
    assert_eq!(rt; bench.hear(rt, 4, &as_end).err(), Some(Refusal::Double));
    Ok(())
}

// A sender goes on collecting, though a commit that another board made of its echoes was delivered before.
#[test]
fn sender_goes_on_collecting(rt: HostRuntime) -> Result<(), Fail> {
    let mut memory = [Entry::blank(); 16];
    let mut bench = Bench::new(seats(FIVE)?, Register::new(&mut memory));
    let said = report(1, 3, 1, b"warm");
    let init = bench.send(&rt, 3, b"warm")?;
    let echoes = [
        bench.hear(&rt, 0, &init)?,
        bench.hear(&rt, 1, &init)?,
        bench.hear(&rt, 2, &init)?,
        bench.hear(&rt, 3, &init)?,
    ];
    let [first, second, third, fourth] = &echoes;
    bench.hear(&rt, 3, first)?.is_nothing(&rt);
    bench.hear(&rt, 3, second)?.is_nothing(&rt);
    let elsewhere = gathered(&rt, said, &echoes, FIVE)?;
    bench.deliver(&rt, &elsewhere, said, Set::only(3))?;
    bench.hear(&rt, 3, third)?.is_nothing(&rt);
    assert_eq!(rt; bench.hear(&rt, 3, third).err(), Some(Refusal::Known));
    let commit = bench.hear(&rt, 3, fourth)?;
    commit.is_commit(&rt, said, FIVE.without(4), FIVE);
    assert_eq!(rt; bench.hear(&rt, 3, fourth).err(), Some(Refusal::Turn));
    assert_eq!(rt; bench.hear(&rt, 3, &commit).err(), Some(Refusal::Order));
    bench.deliver(&rt, &commit, said, FIVE.without(3))?;

    // With the next send it collects no more for the one before.
    let late = bench.send(&rt, 3, b"cold")?;
    late.is_init(&rt, report(1, 3, 2, b"cold"), FIVE);
    assert_eq!(rt; bench.hear(&rt, 3, fourth).err(), Some(Refusal::Turn));
    Ok(())
}

// Board 3 alone numbers its reports to 254. Its end has 255, once another board is in.
#[test]
fn numbers_end_at_255(rt: HostRuntime) -> Result<(), Fail> {
    let alone = Set::only(3);
    let mut bench = Bench::new(seats(alone)?, Keyed::new(&KEYS));
    for number in 1..255 {
        let said = report(1, 3, number, b"tick");
        let commit = bench.reports(&rt, said, alone)?;
        commit.is_commit(&rt, said, alone, alone);
        bench.deliver(&rt, &commit, said, alone)?;
    }
    assert_eq!(rt; bench.counts(3), [0, 0, 0, 254, 0, 0, 0, 0]);
    assert_eq!(rt; bench.send(&rt, 3, b"tick").err(), Some(Refusal::Turn));
    let asks = [bench.ask_in(&rt, 3, 0)?];
    let change = bench.led(&rt, 3, &asks)?;
    bench.enact(&rt, &change, Set::ALL)?;
    assert_eq!(rt; bench.send(&rt, 3, b"tick").err(), Some(Refusal::Turn));
    let last = end(1, 3, 255, &[0]);
    let commit = bench.ends(&rt, last, alone)?;
    commit.is_commit(&rt, last, alone, alone);
    bench.deliver(&rt, &commit, last, alone)?;
    assert_eq!(rt; bench.view(3), Some(2));
    Ok(())
}

// Only commits that a board never sent lead to number 255 without its end: then an end would have 256.
#[test]
fn no_number_follows_255(rt: HostRuntime) -> Result<(), Fail> {
    let alone = Set::only(3);
    let mut bench = Bench::new(seats(alone)?, Keyed::new(&KEYS));
    let asks = [bench.ask_in(&rt, 3, 0)?];
    let change = bench.led(&rt, 3, &asks)?;
    bench.enact(&rt, &change, Set::ALL)?;
    for number in 1..=255 {
        let said = report(1, 3, number, b"tick");
        let echo = bench.signs_echo(&rt, 3, said)?;
        let commit = gathered(&rt, said, &[echo], alone)?;
        bench.deliver(&rt, &commit, said, alone)?;
    }
    assert_eq!(rt; bench.counts(3), [0, 0, 0, 255, 0, 0, 0, 0]);
    assert_eq!(rt; bench.send(&rt, 3, b"tick").err(), Some(Refusal::Turn));
    assert_eq!(rt; bench.finish(&rt, 3).err(), Some(Refusal::Turn));
    Ok(())
}
