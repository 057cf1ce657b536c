// Which form of the sums runs.

// Whether more of them run side by side, as wide registers want it. It promises nothing: what calls it is proved for both
// answers. The archives of wider levels are made with the other (`archives`).
pub(crate) fn wide() -> bool {
    false
}
