// The worked examples of the paper, as theorems: proofs/Examples.antt. There is no code here.
#![tactic(auto)]
