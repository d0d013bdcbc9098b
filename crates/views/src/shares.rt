// How many members of a view may be faulty, f, and how many make a quorum, Q: one table for 1 to 8 members.
// Rule: docs/RULES.md, "Views, shares and ranks". It is shown once, on `table`, and all else cites it.
ghost use Rattle.views.specs.Shares.{Lawful};

#[derive(Clone, Copy)]
pub struct Share {
    pub f: u8,
    pub q: u8,
}

const SHARES: [Share; 8] = [
    Share { f: 0, q: 1 },
    Share { f: 0, q: 2 },
    Share { f: 0, q: 3 },
    Share { f: 1, q: 3 },
    Share { f: 1, q: 4 },
    Share { f: 1, q: 5 },
    Share { f: 2, q: 5 },
    Share { f: 2, q: 6 },
];

// The shares of 1 to 8 members, one after another: the whole table keeps the rule.
pub fn table() -> [Share; 8]
    ensures { Lawful result }
{
    SHARES
}
