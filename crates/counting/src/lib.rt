// Counting: what a row does as manager or deputy with a notify, an ack, a ready, a deputy and a last that it waits for.
// Rules: docs/RULES.md, "Changing the group". Formal text: specs of crate row, Effects.antt.
#![tactic(auto)]

mod counts;
pub mod hear;
mod lasts;
mod leader;
