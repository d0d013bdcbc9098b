// One board's row in the membership layer: what it knows of views, what it voted, and what it counts as a leader.
// Rules: docs/RULES.md, "Changing the group"; formal text: specs/. The calls at a row are in crates `voting`, `counting`, `changing` and `membership`.
#![tactic(auto)]

mod fresh;
pub mod row;
pub mod state;
