// Sweeps too large for one picture, cut into tiles.
#![tactic(auto)]

pub mod cut;
mod padding;
mod place;
pub mod preprocess;
pub mod restore;

// The side of a tile, and how many tiles stand below each other and side by side.
#[derive(Clone, Copy, Debug, PartialEq, Eq)]
pub struct Tiles {
    pub side: usize,
    pub rows: usize,
    pub columns: usize,
}

// A tile: its grid and how many floats its patches have, and where its own bytes lie in the sweep.
#[derive(Clone, Copy, Debug, PartialEq, Eq)]
pub struct Tile {
    pub grid_h: usize,
    pub grid_w: usize,
    pub floats: usize,
    pub top: usize,
    pub left: usize,
    pub height: usize,
    pub width: usize,
}
