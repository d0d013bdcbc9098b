// The messages of the backplane as values, and the format that ties them to bytes.
// Format: docs/FRAMES.md. Laws of the format: src/laws.rt.
#![tactic(auto)]

pub mod field;
pub mod kind;
pub mod laws;
pub mod message;
