// E and T, the exponential and the hyperbolic tangent of the rules, on floats and on bit patterns.
// No public function here has a `requires`, and a NaN gives what the rules say.
#![tactic(auto)]

pub mod exp;
pub mod tanh;
