// A statement is what a board signs for a view: one of the seven lone kinds, without speaker and tag.
// What a statement is as plain data is `said` in specs/Said.antt.
use wire::message::{Content, Entry};

// What is stated, whichever view it is for.
#[derive(Clone, Copy)]
pub enum Claim<'a> {
    Notify { change: u8 },
    Ack { rank: u8, change: u8 },
    Ready { rank: u8, change: u8 },
    Deputy { rank: u8 },
    Last { rank: u8, entry: Entry },
    Init { content: Content<'a> },
    Echo { content: Content<'a> },
}

#[derive(Clone, Copy)]
pub struct Statement<'a> {
    pub view: u8,
    pub claim: Claim<'a>,
}
