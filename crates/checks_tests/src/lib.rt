// Tests of checks: a suggest, a suggest-last and a notify, good and forged, through both schemes.
// They stand in a crate of their own, so that `checks` is proved once.
#![tactic(auto)]

#[cfg(test)]
mod tests {
    use boards::Set;
    use checks::{Part, all_good, boards_of, good_boards};
    use schemes::Scheme;
    use schemes::keyed::Keyed;
    use schemes::register::{Entry as Row, Register};
    use std::process::Abort;
    use std::test::Fail;
    use wire::message::{Body, Entries, Entry, Message, Replies, Spoken, Tagged, Tags};
    use words::statement::{Claim, Statement};

    const NONE: Entry = Entry::NONE;

    const KEPT: Entry = Entry {
        earlier: 3,
        change: 2,
    };

    // Two boards.
    fn pair(a: u8, b: u8) -> Set {
        Set::only(a).with(b)
    }

    // A set of boards with their tags, by board number.
    fn stored(set: Set, tags: &[u64; 8]) -> Tagged<'_> {
        Tagged {
            set,
            tags: Tags::Stored(tags),
        }
    }

    // A tag of the board for what it states.
    fn signed<S: Scheme>(scheme: &mut S, board: u8, said: Statement<'_>) -> Result<u64, Fail> {
        let words = said.words().ok_or_else(|| Fail::new("no words"))?;
        scheme
            .sign(board, words.as_slice())
            .map_err(|_| Fail::new("no tag"))
    }

    fn notify() -> Statement<'static> {
        Statement {
            view: 1,
            claim: Claim::Notify { change: 2 },
        }
    }

    fn answer(entry: Entry) -> Statement<'static> {
        Statement {
            view: 1,
            claim: Claim::Last { rank: 4, entry },
        }
    }

    fn ack() -> Statement<'static> {
        Statement {
            view: 1,
            claim: Claim::Ack {
                rank: KEPT.earlier,
                change: KEPT.change,
            },
        }
    }

    // The good boards of a part; the part's own set if the whole message is good.
    fn found<S: Scheme>(scheme: &S, m: &Message<'_>, part: Part) -> Set {
        if all_good(scheme, m) {
            boards_of(m, part)
        } else {
            good_boards(scheme, m, part)
        }
    }

    // The good boards of a suggest by boards 1 and 3, which sign the same words.
    fn in_suggest<S: Scheme>(scheme: &S, tags: &[u64; 8]) -> Set {
        let m = Message {
            view: 1,
            body: Body::Suggest {
                change: 2,
                by: stored(pair(1, 3), tags),
            },
        };
        found(scheme, &m, Part::Signers)
    }

    // With the boards' own tags, and with board 3's tag for board 1 too.
    fn same_words<S: Scheme>(rt: &impl Abort, scheme: &mut S) -> Result<(), Fail> {
        let first = signed(scheme, 1, notify())?;
        let third = signed(scheme, 3, notify())?;
        let own = [0, first, 0, third, 0, 0, 0, 0];
        let forged = [0, third, 0, third, 0, 0, 0, 0];
        assert_eq!(rt; in_suggest(scheme, &own), pair(1, 3));
        assert_eq!(rt; in_suggest(scheme, &forged), Set::only(3));
        Ok(())
    }

    // The good boards of a suggest-last by boards 0 and 5, each of which signs its own entry, with a proof by boards 2 and 6.
    fn in_last<'a, S: Scheme>(
        scheme: &S,
        entries: &'a [Entry; 8],
        tags: &'a [u64; 8],
        acks: &'a [u64; 8],
        part: Part,
    ) -> Set {
        let m = Message {
            view: 1,
            body: Body::SuggestLast {
                rank: 4,
                replies: Replies {
                    set: pair(0, 5),
                    entries: Entries::Stored { entries, tags },
                },
                proof: stored(pair(2, 6), acks),
            },
        };
        found(scheme, &m, part)
    }

    // As signed, with the entries changed about, and with board 6's ack for board 2 too.
    fn own_words<S: Scheme>(rt: &impl Abort, scheme: &mut S) -> Result<(), Fail> {
        let zeroth = signed(scheme, 0, answer(KEPT))?;
        let fifth = signed(scheme, 5, answer(NONE))?;
        let second = signed(scheme, 2, ack())?;
        let sixth = signed(scheme, 6, ack())?;
        let entries = [KEPT, NONE, NONE, NONE, NONE, NONE, NONE, NONE];
        let other = [NONE, NONE, NONE, NONE, NONE, KEPT, NONE, NONE];
        let tags = [zeroth, 0, 0, 0, 0, fifth, 0, 0];
        let acks = [0, 0, second, 0, 0, 0, sixth, 0];
        let forged = [0, 0, sixth, 0, 0, 0, sixth, 0];
        assert_eq!(rt;
            in_last(scheme, &entries, &tags, &acks, Part::Signers),
            pair(0, 5)
        );
        assert_eq!(rt;
            in_last(scheme, &entries, &tags, &acks, Part::Proof),
            pair(2, 6)
        );
        assert_eq!(rt;
            in_last(scheme, &other, &tags, &acks, Part::Signers),
            Set::EMPTY
        );
        assert_eq!(rt;
            in_last(scheme, &entries, &tags, &forged, Part::Proof),
            Set::only(6)
        );
        Ok(())
    }

    // A notify as heard, with the bytes of a good tag and with fewer.
    fn heard<S: Scheme>(rt: &impl Abort, scheme: &mut S) -> Result<(), Fail> {
        let tag = signed(scheme, 4, notify())?.to_be_bytes();
        assert!(rt; is_notify(scheme, &tag));
        assert!(rt; !is_notify(scheme, &tag[0..7]));
        Ok(())
    }

    fn is_notify<S: Scheme>(scheme: &S, tag: &[u8]) -> bool {
        let m = Message {
            view: 1,
            body: Body::Notify {
                change: 2,
                own: Spoken {
                    speaker: 4,
                    tag: Tags::Heard(tag),
                },
            },
        };
        all_good(scheme, &m)
    }

    #[test]
    fn register_checks(rt: HostRuntime) -> Result<(), Fail> {
        let mut memory = [Row::blank(); 7];
        let mut register = Register::new(&mut memory);
        same_words(&rt, &mut register)?;
        own_words(&rt, &mut register)?;
        heard(&rt, &mut register)
    }

    #[test]
    fn keyed_checks(rt: HostRuntime) -> Result<(), Fail> {
        // Written out in both crates of tests: a call would be no shorter than the value.
        let keys = [
            [7; 16], [6; 16], [5; 16], [4; 16], [3; 16], [2; 16], [1; 16], [0; 16],
        ];
        let mut keyed = Keyed::new(&keys);
        same_words(&rt, &mut keyed)?;
        own_words(&rt, &mut keyed)?;
        heard(&rt, &mut keyed)
    }
}
