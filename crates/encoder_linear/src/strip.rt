// A strip of a linear layer's sums.

// The r rows of nout sums at y, which go on by n products: those from k on of each row of nin floats and row of weights.
#[derive(Clone, Copy)]
pub(crate) struct Strip {
    pub(crate) y: usize,
    pub(crate) r: usize,
    pub(crate) nin: usize,
    pub(crate) nout: usize,
    pub(crate) k: usize,
    pub(crate) n: usize,
}
