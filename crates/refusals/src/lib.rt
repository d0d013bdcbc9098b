// Why a call at a row is refused: the lists that answer the first reason that holds, in the order of docs/REFUSALS.md.
// The tests of the reasons: crates turns and members. What each says of state and message: specs of crate row, Refusals.antt.
#![tactic(auto)]

pub mod first;
pub mod kinds;
