// A bench: eight rows over one register, on which a story of calls is played; what it plays is a history that the agreement theorem speaks of.
// Told in docs/AGREEMENT.md. What a story shows: specs/Story.antt.
#![tactic(auto)]

mod desk;
mod play;
pub mod story;
