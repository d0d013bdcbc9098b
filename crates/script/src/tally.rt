// How many calls a script has made, by their answers.
// The three counts together fit a number of 64 bits, so that they can be added.
ghost use Rattle.std.specs.Prelude.{◌+◌, ◌^◌, ◌<◌};

#[derive(Clone, Copy, Debug)]
pub struct Tally {
    pub ok: u64,
    pub refused: u64,
    pub wrong: u64,
    ghost few: { ok + refused + wrong < 2 ^ 64 },
}
