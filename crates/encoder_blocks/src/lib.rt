// The layers, in one lent scratch.
#![tactic(auto)]

mod block;
pub mod layers;
mod room;

// The sizes of a call: side is P, the most patches on a side. The layers test that hidden is heads times head_dim, and
// head_dim a multiple of 4.
#[derive(Clone, Copy)]
pub struct Sizes {
    pub tokens: usize,
    pub grid_w: usize,
    pub side: usize,
    pub hidden: usize,
    pub heads: usize,
    pub head_dim: usize,
    pub inter: usize,
    pub scaling: f32,
}
