// Voting: what a row answers to a suggest, a proposal, a query and a suggest-last; each is a step that it takes once.
// Rules: docs/RULES.md, "Changing the group". Formal text: specs of crate row, Effects.antt.
#![tactic(auto)]

mod voter;
pub mod votes;
