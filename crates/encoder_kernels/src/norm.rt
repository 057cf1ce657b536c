// The norm of rows.
ghost use Rattle.std.specs.Prelude.{◌≡◌, ◌*◌, ◌≤◌, length};
ghost use Rattle.buffers.specs.Region.{region, put};
ghost use Rattle.encoder_linear.specs.Linear.{dot_of};
ghost use Rattle.encoder_kernels.specs.Kernels.{inv_rms, norm_row, norm_of};
ghost use Rattle.buffers.specs.inner.Room.{where_fits};
ghost use Rattle.encoder_kernels.specs.inner.Room.{norm_fits};
ghost use Rattle.encoder_kernels.specs.inner.Fits.{NormRowFits, NormFits};

use crate::room::norm_fits;
use buffers::part;
use number_bf16_half_root::root::root_f32;

pub(crate) fn dot(x: &[f32], w: &[f32]) -> f32
    requires { length x.now ≡ length w.now }
    ensures { result ≡ dot_of x.now w.now }
{
    let mut acc = 0.0f32;
    for k in 0..x.len() {
        acc = acc + x[k] * w[k];
    }
    acc
}

pub(crate) fn inv_rms(x: &[f32], dim: usize) -> f32
    requires { dim ≤ 2048 }
    ensures { result ≡ inv_rms dim x.now }
{
    let mean = dot(x, x) / (dim as f32);
    1.0 / root_f32(mean + 0.00001)
}

pub(crate) fn norm_row(s: &mut [f32], x: usize, y: usize, dim: usize, w: &[f32])
    requires { NormRowFits (length s.old) (length w.now) x y dim }
    ensures { s.new ≡ put s.old y (norm_row dim w.now (region s.old x dim)) }
{
    let inv = inv_rms(part(s, x, dim), dim);
    for j in 0..dim {
        s[y + j] = s[x + j] * inv * w[j];
    }
}

// The n rows at x, one after another.
pub(crate) fn norm_rows(s: &mut [f32], x: usize, y: usize, n: usize, dim: usize, w: &[f32])
    requires { NormFits (length s.old) (length w.now) x y n dim }
    ensures { s.new ≡ put s.old y (norm_of n dim w.now (region s.old x (n * dim))) }
{
    let mut xa = x;
    let mut ya = y;
    for r in 0..n {
        norm_row(s, xa, ya, dim, w);
        xa += dim;
        ya += dim;
    }
}

// The n rows of dim floats of s at x, normed, written at y.
pub fn rms_norm(s: &mut [f32], x: usize, y: usize, n: usize, dim: usize, w: &[f32])
    ensures { s.new ≡ where_fits (norm_fits (length s.old) (length w.now) x y n dim)
        s.old y (norm_of n dim w.now (region s.old x (n * dim))) }
{
    if norm_fits(s.len(), w.len(), x, y, n, dim) {
        norm_rows(s, x, y, n, dim, w);
    }
}
