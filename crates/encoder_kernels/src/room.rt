// Whether what a kernel is handed fits. No test forms a number that could wrap.
ghost use Rattle.std.specs.Prelude.{◌≡◌};
ghost use Rattle.encoder_kernels.specs.inner.Room.{norm_fits};

use buffers::room::{aside, rows_inside};

pub(crate) fn norm_fits(lens: usize, lenw: usize, x: usize, y: usize, n: usize, dim: usize) -> bool
    ensures { result ≡ norm_fits lens lenw x y n dim }
{
    if rows_inside(lens, x, n, dim) & rows_inside(lens, y, n, dim) {
        return ((dim <= 2048) & (lenw == dim)) & aside(x, n * dim, y, n * dim);
    }
    false
}
