// Stories of views that end, each a test: who leaves, who claims what, when each board goes on and to which view.
// Rules: docs/RULES.md, "Reports and closings".
use crate::bench::{Bench, FIVE, Frame, Said, end, gathered, report, seats};
use boards::Set;
use codes::Refusal;
use schemes::Scheme;
use schemes::register::{Entry, Register};
use std::process::Abort;
use std::test::Fail;

// Those that stay when board 2 leaves: three are a quorum of them, and of the five before they are a quorum.
const FOUR: Set = Set { bits: 0b1101_1000 };

// Nothing was delivered.
const ZEROS: [u8; 8] = [0; 8];

// Boards 0 and 1 ask board 2 out, and board 4 leads that change.
fn without_two<S: Scheme>(rt: &impl Abort, bench: &mut Bench<S>) -> Result<Frame, Fail> {
    let asks = [bench.ask_out(rt, 0, 2)?, bench.ask_out(rt, 1, 2)?];
    bench.led(rt, 4, &asks)
}

// What board 2 sent before it left: its fifth, sixth and seventh report, and the inits of the fifth and the seventh.
#[derive(Drop)]
struct Burst {
    init: Frame,
    fifth: Frame,
    sixth: Frame,
    late: Frame,
    seventh: Frame,
}

const FIFTH: &[u8] = b"hotter";

const SIXTH: &[u8] = b"burning";

const SEVENTH: &[u8] = b"melting";

// Board 2 leaves. Boards 0, 1, 3 and 4 delivered 4, 6, 5 and 6 of its reports, and claim that. So board 0 accepts the fifth and the sixth before it closes, board 3 the sixth,
// and boards 1 and 4 close with the last end.
#[test]
fn view_closes_at_the_largest_claim(rt: HostRuntime) -> Result<(), Fail> {
    let mut memory = [Entry::blank(); 128];
    let mut bench = Bench::new(seats(FIVE)?, Register::new(&mut memory));
    for number in 1..5 {
        let said = report(1, 2, number, b"hot");
        let commit = bench.reports(&rt, said, FIVE)?;
        bench.deliver(&rt, &commit, said, FIVE)?;
    }
    let burst = six_and_a_seventh(&rt, &mut bench)?;
    let change = two_leaves(&rt, &mut bench, &burst)?;
    let commit = zero_is_cut_off(&rt, &mut bench, &burst)?;
    let last = all_have_ended(&rt, &mut bench, &burst, &change)?;
    one_and_four_close(&rt, &mut bench, &last)?;
    zero_is_let_up_to_the_cut(&rt, &mut bench, &burst, &last)?;
    three_closes(&rt, &mut bench, &burst, &last)?;
    numbers_begin_again(&rt, &mut bench, &[burst.late, commit, burst.sixth])
}

// All but board 0 deliver the fifth, boards 1, 2 and 4 the sixth; the seventh has its echoes, and nobody delivers it.
fn six_and_a_seventh<S: Scheme>(rt: &impl Abort, bench: &mut Bench<S>) -> Result<Burst, Fail> {
    let init = bench.send(rt, 2, FIFTH)?;
    let fifth = bench.round(rt, 2, &init, FIVE)?;
    bench.deliver(rt, &fifth, report(1, 2, 5, FIFTH), FIVE.without(0))?;
    let said = report(1, 2, 6, SIXTH);
    let sixth = bench.reports(rt, said, FIVE.without(0))?;
    bench.deliver(rt, &sixth, said, Set::only(1).with(4))?;
    bench.hear(rt, 2, &sixth)?.is_nothing(rt);
    let late = bench.send(rt, 2, SEVENTH)?;
    assert_eq!(rt; bench.hear(rt, 3, &late).err(), Some(Refusal::Order));
    let echoes = [
        bench.hear(rt, 1, &late)?,
        bench.hear(rt, 2, &late)?,
        bench.hear(rt, 4, &late)?,
    ];
    let seventh = gathered(rt, report(1, 2, 7, SEVENTH), &echoes, FIVE)?;
    Ok(Burst {
        init,
        fifth,
        sixth,
        late,
        seventh,
    })
}

// All but board 3 hear of the change. Board 2 leaves view 1 at once, with a record out.
fn two_leaves<S: Scheme>(
    rt: &impl Abort,
    bench: &mut Bench<S>,
    burst: &Burst,
) -> Result<Frame, Fail> {
    assert_eq!(rt; bench.finish(rt, 0).err(), Some(Refusal::Turn));
    let change = without_two(rt, bench)?;
    bench.enact(rt, &change, Set::ALL.without(3))?;
    assert_eq!(rt; bench.view(2), None);
    assert_eq!(rt; bench.counts(2), ZEROS);
    assert_eq!(rt; bench.send(rt, 2, b"gone").err(), Some(Refusal::View));
    assert_eq!(rt; bench.finish(rt, 2).err(), Some(Refusal::View));
    assert_eq!(rt;
        bench.hear(rt, 2, &burst.seventh).err(),
        Some(Refusal::View)
    );
    bench.takes(rt, 2, report(1, 2, 6, SIXTH))?;
    Ok(change)
}

// With its end board 0 cuts board 2 off. It ends once, and sends no report more.
fn zero_is_cut_off<S: Scheme>(
    rt: &impl Abort,
    bench: &mut Bench<S>,
    burst: &Burst,
) -> Result<Frame, Fail> {
    bench
        .hear(rt, 0, &burst.init)?
        .is_echo(rt, report(1, 2, 5, FIFTH), 0);
    let said = end(1, 0, 1, &[4]);
    let init = bench.finish(rt, 0)?;
    init.is_init(rt, said, FIVE);
    assert_eq!(rt; bench.hear(rt, 0, &burst.init).err(), Some(Refusal::Order));
    assert_eq!(rt; bench.hear(rt, 0, &burst.fifth).err(), Some(Refusal::Order));
    let commit = bench.round(rt, 0, &init, FOUR)?;
    commit.is_commit(rt, said, FOUR, FIVE);
    bench.deliver(rt, &commit, said, FOUR)?;
    assert_eq!(rt; bench.finish(rt, 0).err(), Some(Refusal::Turn));
    assert_eq!(rt; bench.send(rt, 0, b"more").err(), Some(Refusal::Turn));
    Ok(commit)
}

// Boards 1 and 4 end, which board 0 delivers; board 3 hears of the change and ends, which nobody delivers yet.
fn all_have_ended<S: Scheme>(
    rt: &impl Abort,
    bench: &mut Bench<S>,
    burst: &Burst,
    change: &Frame,
) -> Result<Frame, Fail> {
    for said in [end(1, 1, 1, &[6]), end(1, 4, 1, &[6])] {
        let commit = bench.ends(rt, said, FOUR)?;
        bench.deliver(rt, &commit, said, FOUR)?;
        assert_eq!(rt; bench.hear(rt, 0, &burst.fifth).err(), Some(Refusal::Order));
    }
    assert_eq!(rt; bench.finish(rt, 3).err(), Some(Refusal::Turn));
    bench.enact(rt, change, Set::only(3))?;
    let last = bench.ends(rt, end(1, 3, 1, &[5]), FOUR)?;
    for board in FOUR.boards() {
        assert_eq!(rt; bench.view(board), Some(1));
    }
    Ok(last)
}

// The last end: the cut is 6, which boards 1 and 4 have.
fn one_and_four_close<S: Scheme>(
    rt: &impl Abort,
    bench: &mut Bench<S>,
    last: &Frame,
) -> Result<(), Fail> {
    for board in [1, 4] {
        assert_eq!(rt; bench.counts(board), [1, 1, 6, 0, 1, 0, 0, 0]);
        bench.hear(rt, board, last)?.is_nothing(rt);
        assert_eq!(rt; bench.view(board), Some(2));
        assert_eq!(rt; bench.counts(board), ZEROS);
        bench.takes(rt, board, end(1, 3, 1, &[5]))?;
    }
    Ok(())
}

// Board 0 accepts the fifth and the sixth, and no more; then it has closed.
fn zero_is_let_up_to_the_cut<S: Scheme>(
    rt: &impl Abort,
    bench: &mut Bench<S>,
    burst: &Burst,
    last: &Frame,
) -> Result<(), Fail> {
    bench.hear(rt, 0, last)?.is_nothing(rt);
    assert_eq!(rt; bench.view(0), Some(1));
    assert_eq!(rt; bench.hear(rt, 0, &burst.fifth).err(), Some(Refusal::Turn));
    bench.takes(rt, 0, end(1, 3, 1, &[5]))?;
    assert_eq!(rt; bench.counts(0), [1, 1, 4, 1, 1, 0, 0, 0]);
    assert_eq!(rt; bench.hear(rt, 0, &burst.init).err(), Some(Refusal::Order));
    assert_eq!(rt;
        bench.hear(rt, 0, &burst.seventh).err(),
        Some(Refusal::Order)
    );
    bench.deliver(rt, &burst.fifth, report(1, 2, 5, FIFTH), Set::only(0))?;
    assert_eq!(rt; bench.counts(0), [1, 1, 5, 1, 1, 0, 0, 0]);
    assert_eq!(rt; bench.view(0), Some(1));
    assert_eq!(rt;
        bench.hear(rt, 0, &burst.seventh).err(),
        Some(Refusal::Order)
    );
    bench.hear(rt, 0, &burst.sixth)?.is_nothing(rt);
    assert_eq!(rt; bench.view(0), Some(2));
    assert_eq!(rt; bench.counts(0), ZEROS);
    assert_eq!(rt;
        bench.hear(rt, 0, &burst.seventh).err(),
        Some(Refusal::View)
    );
    bench.takes(rt, 0, report(1, 2, 6, SIXTH))
}

// Board 3 lacks the sixth alone.
fn three_closes<S: Scheme>(
    rt: &impl Abort,
    bench: &mut Bench<S>,
    burst: &Burst,
    last: &Frame,
) -> Result<(), Fail> {
    bench.deliver(rt, last, end(1, 3, 1, &[5]), Set::only(3))?;
    assert_eq!(rt; bench.hear(rt, 3, &burst.fifth).err(), Some(Refusal::Order));
    assert_eq!(rt; bench.view(3), Some(1));
    bench.deliver(rt, &burst.sixth, report(1, 2, 6, SIXTH), Set::only(3))?;
    assert_eq!(rt; bench.view(3), Some(2));
    Ok(())
}

// Messages of view 1 are of another view now, and numbers begin again.
fn numbers_begin_again<S: Scheme>(
    rt: &impl Abort,
    bench: &mut Bench<S>,
    old: &[Frame; 3],
) -> Result<(), Fail> {
    for frame in old {
        assert_eq!(rt; bench.hear(rt, 3, frame).err(), Some(Refusal::View));
    }
    assert_eq!(rt; bench.finish(rt, 0).err(), Some(Refusal::Turn));
    let said = report(2, 0, 1, b"cool");
    let commit = bench.reports(rt, said, FOUR)?;
    commit.is_commit(rt, said, FOUR.without(4), FOUR);
    bench.deliver(rt, &commit, said, FOUR)
}

// These boards end a view, each claiming nothing or one, and these deliver the ends; until the last of them board 0 stays in the view.
fn all_end<S: Scheme>(
    rt: &impl Abort,
    bench: &mut Bench<S>,
    view: u8,
    claim: &[u8; 1],
    boards: Set,
) -> Result<(), Fail> {
    for board in boards.boards() {
        assert_eq!(rt; bench.view(0), Some(view));
        let said = end(view, board, 1, claim);
        let commit = bench.ends(rt, said, boards)?;
        bench.deliver(rt, &commit, said, boards)?;
    }
    Ok(())
}

// Board 2 leaves, and delivers in no view until a view has it again: it enters that one in the very hear that defines it, while the others are still in the view before.
// A board that was never in stays without.
#[test]
fn board_comes_back(rt: HostRuntime) -> Result<(), Fail> {
    let mut memory = [Entry::blank(); 128];
    let mut bench = Bench::new(seats(FIVE)?, Register::new(&mut memory));
    assert_eq!(rt; bench.view(5), None);
    assert_eq!(rt; bench.send(&rt, 5, b"here").err(), Some(Refusal::View));
    let first = report(1, 2, 1, b"first");
    let commit = bench.reports(&rt, first, FIVE)?;
    bench.deliver(&rt, &commit, first, FOUR)?;
    bench.hear(&rt, 2, &commit)?.is_nothing(&rt);
    board_two_is_out(&rt, &mut bench, &commit)?;
    board_two_is_asked_in(&rt, &mut bench)?;
    bench.takes(&rt, 2, first)?;
    assert_eq!(rt; bench.send(&rt, 5, b"here").err(), Some(Refusal::View));

    // What it sends in view 3 the others hear once they have closed view 2, which nobody left.
    let said = report(3, 2, 1, b"back");
    let init = bench.send(&rt, 2, b"back")?;
    init.is_init(&rt, said, FIVE);
    assert_eq!(rt; bench.hear(&rt, 0, &init).err(), Some(Refusal::View));
    all_end(&rt, &mut bench, 2, &[0], FOUR)?;
    assert_eq!(rt; bench.view(0), Some(3));
    let commit = bench.round(&rt, 2, &init, FIVE)?;
    bench.deliver(&rt, &commit, said, FIVE)
}

// All of view 1 is another view's to it.
fn board_two_is_out<S: Scheme>(
    rt: &impl Abort,
    bench: &mut Bench<S>,
    commit: &Frame,
) -> Result<(), Fail> {
    let init = bench.send(rt, 2, b"second")?;
    let echo = bench.hear(rt, 0, &init)?;
    let change = without_two(rt, bench)?;
    bench.enact(rt, &change, Set::ALL)?;
    assert_eq!(rt; bench.view(2), None);
    for frame in [&init, &echo, commit] {
        assert_eq!(rt; bench.hear(rt, 2, frame).err(), Some(Refusal::View));
    }
    assert_eq!(rt; bench.send(rt, 2, b"third").err(), Some(Refusal::View));
    assert_eq!(rt; bench.finish(rt, 2).err(), Some(Refusal::View));
    Ok(())
}

// The others ask it in once they have closed view 1.
fn board_two_is_asked_in<S: Scheme>(rt: &impl Abort, bench: &mut Bench<S>) -> Result<(), Fail> {
    assert_eq!(rt; bench.ask_in(rt, 0, 2).err(), Some(Refusal::Turn));
    all_end(rt, bench, 1, &[1], FOUR)?;
    assert_eq!(rt; bench.view(0), Some(2));
    let asks = [bench.ask_in(rt, 0, 2)?, bench.ask_in(rt, 1, 2)?];
    let change = bench.led(rt, 4, &asks)?;
    assert_eq!(rt; bench.view(2), None);
    bench.enact(rt, &change, Set::ALL)?;
    assert_eq!(rt; bench.view(2), Some(3));
    assert_eq!(rt; bench.counts(2), ZEROS);
    assert_eq!(rt; bench.view(0), Some(2));
    assert_eq!(rt; bench.view(5), None);
    Ok(())
}

// Two boards ask a board out, and board 4 leads the change, which all hear of.
fn two_ask_out<S: Scheme>(
    rt: &impl Abort,
    bench: &mut Bench<S>,
    by: [u8; 2],
    gone: u8,
) -> Result<(), Fail> {
    let [one, other] = by;
    let asks = [
        bench.ask_out(rt, one, gone)?,
        bench.ask_out(rt, other, gone)?,
    ];
    let change = bench.led(rt, 4, &asks)?;
    bench.enact(rt, &change, Set::ALL)
}

// The ends of view 1 by those that stay, which claim nothing.
fn ends_of_one() -> [Said<'static>; 4] {
    [
        end(1, 0, 1, &[0]),
        end(1, 1, 1, &[0]),
        end(1, 3, 1, &[0]),
        end(1, 4, 1, &[0]),
    ]
}

// Five views are defined while board 1 delivers in view 1. Boards 0, 3 and 4 go on view by view. Board 1 is in views 1, 2, 4 and 5: when it closes view 1 it leaves view 2 as well,
// since view 3 is without it, for view 4. Board 3 is not in view 5: when it closes view 3 it leaves view 4 for none.
#[test]
fn delivery_view_lags(rt: HostRuntime) -> Result<(), Fail> {
    let mut memory = [Entry::blank(); 160];
    let mut bench = Bench::new(seats(FIVE)?, Register::new(&mut memory));
    two_ask_out(&rt, &mut bench, [0, 1], 2)?;
    two_ask_out(&rt, &mut bench, [0, 3], 1)?;
    for board in FOUR.boards() {
        assert_eq!(rt; bench.view(board), Some(1));
    }
    let commits = three_close_one(&rt, &mut bench)?;
    three_close_two(&rt, &mut bench)?;
    let asks = [bench.ask_in(&rt, 0, 1)?];
    let change = bench.led(&rt, 4, &asks)?;
    bench.enact(&rt, &change, Set::ALL)?;
    two_ask_out(&rt, &mut bench, [0, 1], 3)?;
    board_one_goes_to_four(&rt, &mut bench, &commits)?;
    board_three_goes_to_none(&rt, &mut bench)
}

// All four end view 1, and board 1 hears no commit.
fn three_close_one<S: Scheme>(rt: &impl Abort, bench: &mut Bench<S>) -> Result<[Frame; 4], Fail> {
    let [zero, one, three, four] = ends_of_one();
    let commits = [
        bench.ends(rt, zero, FOUR)?,
        bench.ends(rt, one, FOUR)?,
        bench.ends(rt, three, FOUR)?,
        bench.ends(rt, four, FOUR)?,
    ];
    for (said, commit) in ends_of_one().iter().zip(&commits) {
        bench.deliver(rt, commit, *said, FOUR.without(1))?;
    }
    assert_eq!(rt; bench.view(0), Some(2));
    Ok(commits)
}

// Three end view 2, which the next view leaves without board 1.
fn three_close_two<S: Scheme>(rt: &impl Abort, bench: &mut Bench<S>) -> Result<(), Fail> {
    let three = FOUR.without(1);
    for board in three.boards() {
        assert_eq!(rt; bench.ask_in(rt, 0, 1).err(), Some(Refusal::Turn));
        let said = end(2, board, 1, &[0]);
        let init = bench.finish(rt, board)?;
        init.is_init(rt, said, FOUR);
        assert_eq!(rt; bench.hear(rt, 1, &init).err(), Some(Refusal::View));
        let commit = bench.round(rt, board, &init, three)?;
        bench.deliver(rt, &commit, said, three)?;
    }
    assert_eq!(rt; bench.view(0), Some(3));
    Ok(())
}

// With the last end of view 1 board 1 goes on past views 2 and 3.
fn board_one_goes_to_four<S: Scheme>(
    rt: &impl Abort,
    bench: &mut Bench<S>,
    commits: &[Frame; 4],
) -> Result<(), Fail> {
    for (said, commit) in ends_of_one().iter().zip(commits) {
        assert_eq!(rt; bench.view(1), Some(1));
        bench.deliver(rt, commit, *said, Set::only(1))?;
    }
    assert_eq!(rt; bench.view(1), Some(4));
    assert_eq!(rt; bench.counts(1), ZEROS);
    Ok(())
}

// Closing view 3 takes board 3 past view 4, and closing that takes the others to view 5.
fn board_three_goes_to_none<S: Scheme>(rt: &impl Abort, bench: &mut Bench<S>) -> Result<(), Fail> {
    all_end(rt, bench, 3, &[0], FOUR.without(1))?;
    assert_eq!(rt; bench.view(0), Some(4));
    assert_eq!(rt; bench.view(3), None);
    assert_eq!(rt; bench.view(4), Some(4));
    all_end(rt, bench, 4, &[0], FOUR.without(3))?;
    for board in FOUR.without(3).boards() {
        assert_eq!(rt; bench.view(board), Some(5));
    }
    Ok(())
}

// Board 3 alone: its own echo makes the commit. It asks board 0 in, which delivers in view 2 at once, and itself once its own end is delivered.
#[test]
fn one_takes_in_a_second(rt: HostRuntime) -> Result<(), Fail> {
    let alone = Set::only(3);
    let both = alone.with(0);
    let mut memory = [Entry::blank(); 16];
    let mut bench = Bench::new(seats(alone)?, Register::new(&mut memory));
    let said = report(1, 3, 1, b"alone");
    let init = bench.send(&rt, 3, b"alone")?;
    init.is_init(&rt, said, alone);
    let echo = bench.hear(&rt, 3, &init)?;
    echo.is_echo(&rt, said, 3);
    let commit = bench.hear(&rt, 3, &echo)?;
    commit.is_commit(&rt, said, alone, alone);
    bench.deliver(&rt, &commit, said, alone)?;
    assert_eq!(rt; bench.finish(&rt, 3).err(), Some(Refusal::Turn));
    let asks = [bench.ask_in(&rt, 3, 0)?];
    let change = bench.led(&rt, 3, &asks)?;
    assert_eq!(rt; bench.view(0), None);
    bench.enact(&rt, &change, Set::ALL)?;
    assert_eq!(rt; bench.view(0), Some(2));
    assert_eq!(rt; bench.view(3), Some(1));

    // Nobody left, so its claim is 0.
    let last = end(1, 3, 2, &[0]);
    let init = bench.finish(&rt, 3)?;
    init.is_init(&rt, last, alone);
    assert_eq!(rt; bench.hear(&rt, 0, &init).err(), Some(Refusal::View));
    let commit = bench.round(&rt, 3, &init, alone)?;
    bench.hear(&rt, 3, &commit)?.is_nothing(&rt);
    assert_eq!(rt; bench.view(3), Some(2));
    assert_eq!(rt; bench.counts(3), ZEROS);
    bench.takes(&rt, 3, last)?;
    let said = report(2, 3, 1, b"not alone");
    let commit = bench.reports(&rt, said, both)?;
    commit.is_commit(&rt, said, both, both);
    bench.deliver(&rt, &commit, said, both)?;
    Ok(())
}

// A commit of what nobody sent, by four faulty boards.
fn by_four<S: Scheme>(
    rt: &impl Abort,
    bench: &mut Bench<S>,
    said: Said<'_>,
) -> Result<Frame, Fail> {
    let by = [
        bench.signs_echo(rt, 1, said)?,
        bench.signs_echo(rt, 2, said)?,
        bench.signs_echo(rt, 3, said)?,
        bench.signs_echo(rt, 4, said)?,
    ];
    gathered(rt, said, &by, FIVE)
}

// Boards 1 to 4 commit what was never sent, ends of boards 0 and 1 too. Of board 2's reports board 0 delivered three, board 1 two, and the cut is 2.
// So board 1 closes view 1 in the very hear of the change. At board 0 a count above the cut closes nothing; what counts as its end is what it sends itself, and before that nothing is cut off.
#[test]
fn ends_that_nobody_sent(rt: HostRuntime) -> Result<(), Fail> {
    let mut memory = [Entry::blank(); 64];
    let mut bench = Bench::new(seats(FIVE)?, Register::new(&mut memory));
    let two = Set::only(0).with(1);
    for said in [report(1, 2, 1, b"hot"), report(1, 2, 2, b"hot")] {
        let commit = by_four(&rt, &mut bench, said)?;
        bench.deliver(&rt, &commit, said, two)?;
    }
    let third = report(1, 2, 3, b"hot");
    let commit = by_four(&rt, &mut bench, third)?;
    bench.deliver(&rt, &commit, third, Set::only(0))?;
    for said in [
        end(1, 0, 1, &[2]),
        end(1, 1, 1, &[2]),
        end(1, 3, 1, &[1]),
        end(1, 4, 1, &[0]),
    ] {
        let commit = by_four(&rt, &mut bench, said)?;
        bench.deliver(&rt, &commit, said, two)?;
    }
    let change = without_two(&rt, &mut bench)?;
    bench.enact(&rt, &change, two)?;
    assert_eq!(rt; bench.view(0), Some(1));
    assert_eq!(rt; bench.counts(0), [1, 1, 3, 1, 1, 0, 0, 0]);
    assert_eq!(rt; bench.view(1), Some(2));
    assert_eq!(rt; bench.counts(1), ZEROS);
    above_the_cut(&rt, &mut bench)
}

// At board 0 the count is above the cut: it stays in view 1, and its own end cuts board 2 off.
fn above_the_cut<S: Scheme>(rt: &impl Abort, bench: &mut Bench<S>) -> Result<(), Fail> {
    let fourth = report(1, 2, 4, b"hot");
    let commit = by_four(rt, bench, fourth)?;
    bench.deliver(rt, &commit, fourth, Set::only(0))?;
    let init = bench.finish(rt, 0)?;
    init.is_init(rt, end(1, 0, 2, &[4]), FIVE);
    let fifth = by_four(rt, bench, report(1, 2, 5, b"hot"))?;
    assert_eq!(rt; bench.hear(rt, 0, &fifth).err(), Some(Refusal::Order));
    assert_eq!(rt; bench.hear(rt, 0, &init).err(), Some(Refusal::Order));
    assert_eq!(rt; bench.view(0), Some(1));
    Ok(())
}
