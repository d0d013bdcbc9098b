// Heads: the packed fields that messages and signed words open with, put side by side in one number.
// The struct stands in src/number.rt, building one and its bytes in src/build.rt, the shapes that kinds share in src/shapes.rt.
#![tactic(auto)]

pub mod build;
pub mod number;
pub mod shapes;
