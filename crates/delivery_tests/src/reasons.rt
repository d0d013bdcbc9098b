// Reasons against a call that the other stories do not meet, each a test, and which comes first where two hold.
// Rules: docs/REFUSALS.md; docs/RULES.md, "Reports and closings".
use crate::bench::{Bench, FIVE, end, gathered, report, seats};
use boards::Set;
use codes::Refusal;
use delivery::reports::Reports;
use membership::calls;
use reader::read::read;
use row::row::Row;
use schemes::register::{Entry, Register};
use sending::post;
use std::test::Fail;
use views::view::View;
use wire::message::{
    Body, Content, Entries, Entry as Told, Message, Replies, Sort, Spoken, Tagged, Tags,
};

// LONG: 48 bytes go through, 49 do not.
#[test]
fn payload_is_long(rt: HostRuntime) -> Result<(), Fail> {
    let mut memory = [Entry::blank(); 8];
    let mut bench = Bench::new(seats(FIVE)?, Register::new(&mut memory));
    assert_eq!(rt; bench.send(&rt, 0, &[7; 49]).err(), Some(Refusal::Long));
    assert_eq!(rt; bench.send(&rt, 5, &[7; 49]).err(), Some(Refusal::Long));
    let said = report(1, 0, 1, &[7; 48]);
    let commit = bench.reports(&rt, said, FIVE)?;
    commit.is_commit(&rt, said, FIVE.without(4), FIVE);
    bench.deliver(&rt, &commit, said, FIVE)?;
    assert_eq!(rt; bench.send(&rt, 0, &[7; 49]).err(), Some(Refusal::Long));
    Ok(())
}

// OUT: every call that may write wants 128 bytes, whatever it will write, and says so first.
#[test]
fn offered_bytes_are_too_few(rt: HostRuntime) -> Result<(), Fail> {
    let mut memory = [Entry::blank(); 16];
    let mut bench = Bench::new(seats(FIVE)?, Register::new(&mut memory));
    let said = report(1, 0, 1, b"a");
    bench.room = 127;
    assert_eq!(rt; bench.send(&rt, 0, b"a").err(), Some(Refusal::Out));
    assert_eq!(rt; bench.send(&rt, 5, &[7; 49]).err(), Some(Refusal::Out));
    assert_eq!(rt; bench.finish(&rt, 0).err(), Some(Refusal::Out));
    assert_eq!(rt; bench.finish(&rt, 5).err(), Some(Refusal::Out));
    bench.room = 128;
    let init = bench.send(&rt, 0, b"a")?;
    let by = [
        bench.hear(&rt, 0, &init)?,
        bench.hear(&rt, 1, &init)?,
        bench.hear(&rt, 2, &init)?,
        bench.hear(&rt, 3, &init)?,
    ];
    let [echo, ..] = &by;
    let commit = gathered(&rt, said, &by, FIVE)?;
    bench.room = 127;
    for frame in [&init, echo, &commit] {
        assert_eq!(rt; bench.hear(&rt, 0, frame).err(), Some(Refusal::Out));
        assert_eq!(rt; bench.hear(&rt, 5, frame).err(), Some(Refusal::Out));
    }
    bench.room = 128;
    bench.hear(&rt, 0, &init)?.is_echo(&rt, said, 0);
    bench.hear(&rt, 0, echo)?.is_nothing(&rt);
    bench.deliver(&rt, &commit, said, FIVE)
}

// VIEW and MEMBER: a message of another view, and a sender, a speaker or a board of a set that is not in the view; before TURN and ORDER.
#[test]
fn outsiders(rt: HostRuntime) -> Result<(), Fail> {
    let mut memory = [Entry::blank(); 32];
    let mut bench = Bench::new(seats(FIVE)?, Register::new(&mut memory));
    let said = report(1, 0, 1, b"in");
    let outside = report(1, 5, 2, b"out");
    let later = report(2, 5, 1, b"out");
    let init = bench.send(&rt, 0, b"in")?;
    let by = [
        bench.hear(&rt, 0, &init)?,
        bench.hear(&rt, 1, &init)?,
        bench.hear(&rt, 2, &init)?,
        bench.hear(&rt, 3, &init)?,
    ];
    let commit = gathered(&rt, said, &by, FIVE)?;
    bench.hear(&rt, 1, &commit)?.is_nothing(&rt);
    let [echo, second, third, ..] = by;
    let stranger = bench.signs_echo(&rt, 5, said)?;
    let mixed = [echo, second, third, stranger];
    let echo_outside = bench.signs_echo(&rt, 0, outside)?;
    let echo_later = bench.signs_echo(&rt, 0, later)?;
    for frame in [
        bench.signs_init(&rt, outside, FIVE)?,
        stranger,
        echo_outside,
        gathered(&rt, said, &mixed, FIVE)?,
        gathered(&rt, outside, &[echo_outside], FIVE)?,
    ] {
        assert_eq!(rt; bench.hear(&rt, 1, &frame).err(), Some(Refusal::Member));
        assert_eq!(rt; bench.hear(&rt, 0, &frame).err(), Some(Refusal::Member));
        assert_eq!(rt; bench.hear(&rt, 5, &frame).err(), Some(Refusal::View));
    }
    for frame in [
        bench.signs_init(&rt, later, FIVE)?,
        echo_later,
        gathered(&rt, later, &[echo_later], FIVE)?,
    ] {
        assert_eq!(rt; bench.hear(&rt, 1, &frame).err(), Some(Refusal::View));
    }
    Ok(())
}

// TURN and KNOWN of an echo: it is collected at the sender alone, of just what was sent, and once from each board.
#[test]
fn echoes(rt: HostRuntime) -> Result<(), Fail> {
    let mut memory = [Entry::blank(); 16];
    let mut bench = Bench::new(seats(FIVE)?, Register::new(&mut memory));
    let early = bench.signs_echo(&rt, 1, report(1, 0, 1, b"a"))?;
    assert_eq!(rt; bench.hear(&rt, 0, &early).err(), Some(Refusal::Turn));
    let init = bench.send(&rt, 0, b"a")?;
    let echo = bench.hear(&rt, 1, &init)?;
    assert_eq!(rt; bench.hear(&rt, 1, &echo).err(), Some(Refusal::Turn));
    for said in [
        report(1, 0, 2, b"a"),
        report(1, 0, 1, b"b"),
        end(1, 0, 1, b"a"),
        report(1, 2, 1, b"a"),
    ] {
        let other = bench.signs_echo(&rt, 1, said)?;
        assert_eq!(rt; bench.hear(&rt, 0, &other).err(), Some(Refusal::Turn));
    }
    bench.hear(&rt, 0, &echo)?.is_nothing(&rt);
    let again = bench.hear(&rt, 1, &init)?;
    for known in [echo, again, early, echo.forged()] {
        assert_eq!(rt; bench.hear(&rt, 0, &known).err(), Some(Refusal::Known));
    }
    Ok(())
}

// ORDER of an init and a commit: a number that is not the next, and a sender that has ended. Before TAG, DOUBLE and SIZE.
#[test]
fn sender_has_ended(rt: HostRuntime) -> Result<(), Fail> {
    let mut memory = [Entry::blank(); 32];
    let mut bench = Bench::new(seats(FIVE)?, Register::new(&mut memory));
    let second = report(1, 3, 2, b"b");
    let init = bench.signs_init(&rt, second, FIVE)?;
    let echo = bench.signs_echo(&rt, 3, second)?;
    let by_one = gathered(&rt, second, &[echo], FIVE)?;
    for frame in [init, init.forged(), by_one] {
        assert_eq!(rt; bench.hear(&rt, 0, &frame).err(), Some(Refusal::Order));
    }
    let last = end(1, 3, 1, &[9]);
    let init_last = bench.signs_init(&rt, last, FIVE)?;
    let by = [
        bench.hear(&rt, 0, &init_last)?,
        bench.hear(&rt, 1, &init_last)?,
        bench.hear(&rt, 2, &init_last)?,
        bench.hear(&rt, 4, &init_last)?,
    ];
    let commit = gathered(&rt, last, &by, FIVE)?;
    bench.deliver(&rt, &commit, last, Set::only(0))?;
    assert_eq!(rt; bench.counts(0), [0, 0, 0, 1, 0, 0, 0, 0]);
    for frame in [init, by_one, init_last, commit] {
        assert_eq!(rt; bench.hear(&rt, 0, &frame).err(), Some(Refusal::Order));
    }
    assert_eq!(rt; bench.view(0), Some(1));
    Ok(())
}

// TAG: after DOUBLE and SIZE, before SPENT.
#[test]
fn tags_are_forged(rt: HostRuntime) -> Result<(), Fail> {
    let mut memory = [Entry::blank(); 6];
    let mut bench = Bench::new(seats(FIVE)?, Register::new(&mut memory));
    let said = report(1, 0, 1, b"a");
    let init = bench.send(&rt, 0, b"a")?;
    assert_eq!(rt;
        bench.hear(&rt, 1, &init.forged()).err(),
        Some(Refusal::Tag)
    );
    let by = [
        bench.hear(&rt, 0, &init)?,
        bench.hear(&rt, 1, &init)?,
        bench.hear(&rt, 2, &init)?,
        bench.hear(&rt, 3, &init)?,
    ];
    let other = bench.signs_init(&rt, report(1, 0, 1, b"b"), FIVE)?;
    assert_eq!(rt;
        bench.hear(&rt, 1, &other.forged()).err(),
        Some(Refusal::Double)
    );
    assert_eq!(rt;
        bench.hear(&rt, 4, &init.forged()).err(),
        Some(Refusal::Tag)
    );
    let [echo, second, third, _] = by;
    assert_eq!(rt;
        bench.hear(&rt, 0, &echo.forged()).err(),
        Some(Refusal::Tag)
    );
    bench.hear(&rt, 0, &echo)?.is_nothing(&rt);
    let three = gathered(&rt, said, &[echo, second, third], FIVE)?;
    let commit = gathered(&rt, said, &by, FIVE)?;
    assert_eq!(rt;
        bench.hear(&rt, 4, &three.forged()).err(),
        Some(Refusal::Size)
    );
    assert_eq!(rt;
        bench.hear(&rt, 4, &commit.forged()).err(),
        Some(Refusal::Tag)
    );
    bench.deliver(&rt, &commit, said, FIVE)
}

// SPENT: the calls that sign say so, after every other reason; an echo is collected and a commit delivered all the same.
#[test]
fn scheme_is_spent(rt: HostRuntime) -> Result<(), Fail> {
    let mut memory = [Entry::blank(); 5];
    let mut bench = Bench::new(seats(FIVE)?, Register::new(&mut memory));
    let said = report(1, 0, 1, b"a");
    let init = bench.send(&rt, 0, b"a")?;
    let commit = bench.round(&rt, 0, &init, FIVE.without(4))?;
    assert_eq!(rt; bench.hear(&rt, 4, &init).err(), Some(Refusal::Spent));
    assert_eq!(rt; bench.hear(&rt, 1, &init).err(), Some(Refusal::Spent));
    assert_eq!(rt; bench.send(&rt, 0, b"b").err(), Some(Refusal::Turn));
    assert_eq!(rt; bench.send(&rt, 1, b"b").err(), Some(Refusal::Spent));
    bench.deliver(&rt, &commit, said, FIVE)?;
    assert_eq!(rt; bench.send(&rt, 0, b"b").err(), Some(Refusal::Spent));
    assert_eq!(rt; bench.finish(&rt, 0).err(), Some(Refusal::Turn));
    assert_eq!(rt; bench.hear(&rt, 4, &init).err(), Some(Refusal::Order));
    Ok(())
}

// The same of an end: a change of a board alone takes three signatures.
#[test]
fn scheme_is_spent_for_an_end(rt: HostRuntime) -> Result<(), Fail> {
    let mut memory = [Entry::blank(); 3];
    let mut bench = Bench::new(seats(Set::only(3))?, Register::new(&mut memory));
    let asks = [bench.ask_in(&rt, 3, 0)?];
    let change = bench.led(&rt, 3, &asks)?;
    bench.enact(&rt, &change, Set::ALL)?;
    assert_eq!(rt; bench.finish(&rt, 3).err(), Some(Refusal::Spent));
    assert_eq!(rt; bench.send(&rt, 3, b"a").err(), Some(Refusal::Spent));
    assert_eq!(rt; bench.finish(&rt, 0).err(), Some(Refusal::Turn));
    assert_eq!(rt; bench.finish(&rt, 1).err(), Some(Refusal::View));
    Ok(())
}

// A take where nothing is out answers zeros.
#[test]
fn nothing_is_out(rt: HostRuntime) -> Result<(), Fail> {
    let mut memory = [Entry::blank(); 8];
    let mut bench = Bench::new(seats(FIVE)?, Register::new(&mut memory));
    let said = report(1, 0, 1, b"a");
    let commit = bench.reports(&rt, said, FIVE)?;
    bench.hear(&rt, 0, &commit)?.is_nothing(&rt);
    bench.takes(&rt, 0, said)?;
    for board in [0, 1, 5] {
        let record = bench.take(&rt, board)?;
        assert_eq!(rt; (record.view, record.sender, record.number), (0, 0, 0));
        assert_eq!(rt; record.content.sort, Sort::Report);
        assert!(rt; record.content.payload.as_slice().is_empty());
    }
    Ok(())
}

// Messages of kinds 1 to 10, whose view, boards and tags are as they may be.
fn of_the_group() -> [Body<'static>; 10] {
    let own = Spoken {
        speaker: 0,
        tag: Tags::Fresh(0),
    };
    let by = Tagged {
        set: Set::ALL,
        tags: Tags::Stored(&[0; 8]),
    };
    let proof = Tagged {
        set: Set::EMPTY,
        tags: Tags::Stored(&[0; 8]),
    };
    let replies = Replies {
        set: Set::ALL,
        entries: Entries::Stored {
            entries: &[Told::NONE; 8],
            tags: &[0; 8],
        },
    };
    let (rank, change, entry) = (4, 2, Told::NONE);
    [
        Body::Notify { change, own },
        Body::Suggest { change, by },
        Body::Ack { rank, change, own },
        Body::Proposal { rank, change, by },
        Body::Ready { rank, change, own },
        Body::Change { rank, change, by },
        Body::Deputy { rank, own },
        Body::Query { rank, by },
        Body::Last {
            rank,
            entry,
            own,
            proof,
        },
        Body::SuggestLast {
            rank,
            replies,
            proof,
        },
    ]
}

// They have no answer in this layer.
#[test]
fn kinds_of_the_group(rt: HostRuntime) -> Result<(), Fail> {
    let first = View::try_from(FIVE)?;
    let row = Row::start(0, first)?;
    let mut reports = Reports::start(0, &first);
    let mut memory = [Entry::blank(); 2];
    let mut scheme = Register::new(&mut memory);
    for body in of_the_group() {
        let mut bytes = [0; 128];
        let written = post(&Message { view: 1, body }, FIVE, &mut bytes).ok_or("no message")?;
        let m = read(bytes.get(..written.length).ok_or("too long")?)?;
        let mut out = [0xA5; 128];
        assert!(rt; reports.hear(&row, &mut scheme, &m, &mut out).is_none());
        assert!(rt; reports.hear(&row, &mut scheme, &m, &mut []).is_none());
        assert!(rt; out == [0xA5; 128]);
    }
    Ok(())
}

// Nor has one of kinds 11 to 13 in the membership layer, nor a value that no bytes spell, as of view 0, in this one.
#[test]
fn kinds_of_reports(rt: HostRuntime) -> Result<(), Fail> {
    let first = View::try_from(FIVE)?;
    let mut row = Row::start(0, first)?;
    let mut reports = Reports::start(0, &first);
    let mut memory = [Entry::blank(); 2];
    let mut scheme = Register::new(&mut memory);
    let tag = Tags::Fresh(0);
    let content = Content {
        sender: 0,
        number: 1,
        sort: Sort::Report,
        payload: b"a",
    };
    let own = Spoken { speaker: 0, tag };
    let by = own.tagged();
    for body in [
        Body::Init { content, tag },
        Body::Echo { content, own },
        Body::Commit { content, by },
    ] {
        let mut out = [0xA5; 128];
        let m = Message { view: 1, body };
        assert!(rt; calls::hear(&mut row, &mut scheme, &m, &mut out).is_none());
        assert!(rt;
            reports
                .hear(&row, &mut scheme, &Message { view: 0, body }, &mut out)
                .is_none()
        );
        assert!(rt; reports.hear(&row, &mut scheme, &m, &mut out).is_some());
        assert!(rt; out == [0xA5; 128]);
    }
    Ok(())
}
