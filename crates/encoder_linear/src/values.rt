// The values of a weighted sum.

// The t rows of dim at v, of which the hd places from o on are summed.
#[derive(Clone, Copy)]
pub(crate) struct Values {
    pub(crate) v: usize,
    pub(crate) t: usize,
    pub(crate) dim: usize,
    pub(crate) hd: usize,
    pub(crate) o: usize,
}
