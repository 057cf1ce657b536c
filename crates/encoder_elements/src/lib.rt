// What a layer does value by value: the residual, silu times another value, gelu, bf16. Each function reads and writes
// floats where it is told, and nothing where they do not fit.
#![tactic(auto)]

pub mod element;
mod room;
mod silus;
mod values;
