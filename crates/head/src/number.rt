// A head of at most 32 bits as one number, the first field on top.
// What is no head, as one field too many or a value that is not allowed, is `None` where it would be built: src/build.rt.
ghost use Rattle.std.specs.Prelude.{◌^◌, ◌<◌, ◌≤◌};

#[derive(Clone, Copy)]
pub struct Head {
    pub number: u32,
    pub width: u8,
    ghost narrow: { width ≤ 32 },
    ghost below: { number < 2 ^ width },
}
