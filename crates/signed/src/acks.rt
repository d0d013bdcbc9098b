// A proof that a proposal was acknowledged: the boards whose tags are in it, and the ack that each stands for.
// Only lasts and suggest-lasts carry one; finding it: src/lib.rt.
use boards::Set;
use words::statement::Statement;

#[derive(Clone, Copy)]
pub struct Proof {
    pub boards: Set,
    pub act: Statement<'static>,
}
