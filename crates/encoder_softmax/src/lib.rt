// The softmax of a row.
#![tactic(auto)]

mod soften;
pub mod softmax;
