// bf16, half and the root: the number rules that are worked out on bit patterns, bf16 and the root of floats, and bf16 in storage.
// No public function here has a `requires`, and a NaN pattern gives what the rules say.
#![tactic(auto)]

pub mod bf16;
pub mod half;
pub mod packed;
pub mod root;
