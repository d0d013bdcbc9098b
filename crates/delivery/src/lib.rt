// Delivery: what one board holds of reports, and its calls, over any scheme: to send a report, to finish a view, to hear an init, an echo or a commit, to take what was delivered.
// Rules: docs/RULES.md, "Reports and closings". What each call promises: specs/Calls.antt.
#![tactic(auto)]

mod accepted;
pub mod calls;
pub mod content;
mod endings;
pub mod laws;
mod refusals;
pub mod reports;
