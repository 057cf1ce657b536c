// The plainest safetensors file of given weights is read back: specs/Back.antt says it, and proofs/ prove it. There is no code here.
#![tactic(auto)]
