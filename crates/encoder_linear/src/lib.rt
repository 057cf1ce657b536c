// Sums side by side: the linear layer and weighted sums.
#![tactic(auto)]

pub mod bias;
mod few;
mod lanes;
mod level;
pub mod linear;
pub mod pair;
mod room;
mod strip;
mod values;
pub mod weigh;
