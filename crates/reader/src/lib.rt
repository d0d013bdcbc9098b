// Reading the bytes of the backplane: heard bytes to a message, or the first fault met from the front.
// Format: docs/FRAMES.md. What a user calls is `read`; the readers and their parts stay inside.
#![tactic(auto)]

mod bits;
mod heads;
mod parts;
mod place;
pub mod read;
