// A picture to patches, and a patch of them.
#![tactic(auto)]

pub mod patch;
pub mod preprocess;

// The grid of a picture's patches, and how many floats they have.
#[derive(Clone, Copy, Debug, PartialEq, Eq)]
pub struct Patches {
    pub grid_h: usize,
    pub grid_w: usize,
    pub floats: usize,
}
