// What boards sign: statements, and the words signed for each.
// Rules: docs/FRAMES.md, "Signed words". Acts and their words as plain data: specs of crate wire, Acts.antt.
#![tactic(auto)]

pub mod spell;
pub mod statement;
pub mod text;
