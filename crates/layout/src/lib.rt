// A message laid out as it is written: a head of whole bytes as one number, what stands between, a set and its tags.
// Format: docs/FRAMES.md. A value that no bytes spell has no layout. Words of the contracts: specs/.
#![tactic(auto)]

pub mod gather;
pub mod lay;
pub mod measure;
pub mod plan;
pub mod seal;
