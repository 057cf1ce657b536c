// Floats and their bit patterns, narrowing and widening, and whole numbers near a float.
// No public function here has a `requires`, and a NaN gives what the rules say.
#![tactic(auto)]

pub mod narrow;
pub mod pattern;
pub mod whole;
