// Where the rotated tokens stand.

// The tokens at x, of a grid gw wide, each of so many heads of two halves; the tables are for a grid of side by side.
#[derive(Clone, Copy)]
pub(crate) struct Places {
    pub(crate) x: usize,
    pub(crate) tokens: usize,
    pub(crate) heads: usize,
    pub(crate) half: usize,
    pub(crate) gw: usize,
    pub(crate) side: usize,
}
