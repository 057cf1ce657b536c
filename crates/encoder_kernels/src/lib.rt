// The norm and the test for finite values: each kernel reads and writes floats where it is told, and nothing where they do
// not fit.
#![tactic(auto)]

pub mod finite;
pub mod norm;
mod room;
