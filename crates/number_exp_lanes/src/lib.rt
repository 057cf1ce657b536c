// E of sixteen values side by side, with the bits of each value alone.
#![tactic(auto)]

pub mod lanes;
mod straight;
