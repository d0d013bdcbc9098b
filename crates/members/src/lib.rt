// Who a message speaks of: MEMBER, whether all are in the view; CHANGE, whether the change can be made in it; SIZE, whether its sets have the right
// number of boards; SPLIT, whether the entries told agree. Rules: docs/RULES.md, "Changing the group"; specs of crate row, Refusals.antt.
#![tactic(auto)]

pub mod entries;
pub mod group;
pub mod ranks;
pub mod sizes;
