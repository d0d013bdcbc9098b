// The calls at one row of the membership layer, over any scheme: to ask a member out, to ask a board in, to hear a message.
// Rules: docs/RULES.md, "Changing the group". What each call promises: specs of crate row, Calls.antt.
#![tactic(auto)]

mod asks;
pub mod calls;
