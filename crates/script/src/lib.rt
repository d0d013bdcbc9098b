// The tester's script: lines of text to calls, and the answers of calls to lines of text.
// Format: docs/SCRIPT.md. What each text is, byte for byte, is said in specs/.
#![tactic(auto)]

pub mod answer;
pub mod audit;
pub mod call;
mod count;
pub mod group;
pub mod hex;
mod line;
mod lists;
mod numbers;
mod shown;
pub mod tally;
pub mod words;
