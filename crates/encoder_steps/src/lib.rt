// The steps that are examined: each writes its result in the scratch where all fits, and says whether what then stands
// there is finite, and all up to here.
#![tactic(auto)]

ghost use Rattle.std.specs.Prelude.{◌≡◌, ◌+◌, ◌*◌, ◌/◌, length};
ghost use Rattle.buffers.specs.Region.{region};
ghost use Rattle.buffers.specs.inner.Room as R;
ghost use Rattle.encoder_linear.specs.Linear.{linear_of, carried, linear_by};
ghost use Rattle.encoder_linear.specs.inner.Room.{from_fits};
ghost use Rattle.encoder_elements.specs.Element.{added, gated, gelued, rounded};
ghost use Rattle.encoder_elements.specs.inner.Room.{pair_fits};
ghost use Rattle.encoder_kernels.specs.Kernels.{norm_of};
ghost use Rattle.encoder_rotation.specs.Rotate.{rotate_of};
ghost use Rattle.encoder_kernels.specs.inner.Room.{norm_fits};
ghost use Rattle.encoder_rotation.specs.Axes.{expand};
ghost use Rattle.encoder_rotation.specs.inner.Room.{rotate_fits, axes_fit};
ghost use Rattle.encoder_steps.specs.inner.Step.{finite_at, linear_at_fits, bias_at_fits, Tried};

use buffers::part;
use buffers::room::{inside, rows_inside};
use encoder_elements::element::{add_into, gate, gelu_inplace, truncate_to_bf16_inplace};
use encoder_kernels::finite::finite;
use encoder_kernels::norm::rms_norm;
use encoder_linear::bias::linear_forward;
use encoder_linear::linear::{linear_from, linear_no_bias_forward};
use encoder_rotation::axes::rotate_axes;
use encoder_rotation::rotate::rotate;

// Whether the n floats at y lie inside, and are finite.
pub(crate) fn finite_at(s: &[f32], y: usize, n: usize) -> bool
    ensures { result ≡ finite_at s.now y n }
{
    inside(s.len(), y, n) & finite(part(s, y, n))
}

// The same of n rows of d floats.
pub(crate) fn finite_rows(s: &[f32], y: usize, n: usize, d: usize) -> bool
    ensures { result ≡ finite_at s.now y (n * d) }
{
    if rows_inside(s.len(), y, n, d) {
        return finite(part(s, y, n * d));
    }
    false
}

// The same of n rows of heads, each of two halves. Where not even one row lies inside, none do but no row at all.
pub(crate) fn finite_heads(s: &[f32], y: usize, n: usize, heads: usize, half: usize) -> bool
    ensures { result ≡ finite_at s.now y (n * (heads * (half + half))) }
{
    if rows_inside(s.len(), y, heads, half) {
        let d = heads * half;
        if rows_inside(s.len(), y, 2, d) {
            return finite_rows(s, y, n, 2 * d);
        }
    }
    (n == 0) & finite_at(s, y, 0)
}

// A linear layer by the matrix at a place of the weights.
pub fn linear_finite(
    s: &mut [f32],
    x: usize,
    y: usize,
    n: usize,
    nin: usize,
    nout: usize,
    w: &[f32],
    at: usize,
    ok: bool,
) -> bool
    ensures { Tried (linear_at_fits (length s.old) (length w.now) x y n nin nout at) s.old s.new y (n * nout)
        (linear_of n nin nout (region w.now at (nout * nin)) (region s.old x (n * nin))) ok result }
{
    if rows_inside(w.len(), at, nout, nin) {
        linear_no_bias_forward(s, x, y, n, nin, nout, part(w, at, nout * nin));
        return ok & finite_rows(s, y, n, nout);
    }
    ok & finite_rows(s, y, n, nout)
}

// A linear layer with a bias, which stands at place b of the weights.
pub fn linear_bias_finite(
    s: &mut [f32],
    x: usize,
    y: usize,
    n: usize,
    nin: usize,
    nout: usize,
    w: &[f32],
    at: usize,
    b: usize,
    ok: bool,
) -> bool
    ensures { Tried (bias_at_fits (length s.old) (length w.now) x y n nin nout at b) s.old s.new y (n * nout)
        (linear_by (carried (region w.now b nout)) n nin nout (region w.now at (nout * nin)) (region s.old x (n * nin))) ok result }
{
    if rows_inside(w.len(), at, nout, nin) & inside(w.len(), b, nout) {
        let m = part(w, at, nout * nin);
        linear_forward(s, x, y, n, nin, nout, m, part(w, b, nout));
        return ok & finite_rows(s, y, n, nout);
    }
    ok & finite_rows(s, y, n, nout)
}

// A linear layer of another slice.
pub fn linear_from_finite(
    x: &[f32],
    s: &mut [f32],
    y: usize,
    n: usize,
    nin: usize,
    nout: usize,
    w: &[f32],
    ok: bool,
) -> bool
    ensures { Tried (from_fits (length x.now) (length s.old) (length w.now) y n nin nout) s.old s.new y (n * nout)
        (linear_of n nin nout w.now x.now) ok result }
{
    linear_from(x, s, y, n, nin, nout, w);
    ok & finite_rows(s, y, n, nout)
}

pub fn norm_finite(
    s: &mut [f32],
    x: usize,
    y: usize,
    n: usize,
    dim: usize,
    w: &[f32],
    ok: bool,
) -> bool
    ensures { Tried (norm_fits (length s.old) (length w.now) x y n dim) s.old s.new y (n * dim)
        (norm_of n dim w.now (region s.old x (n * dim))) ok result }
{
    rms_norm(s, x, y, n, dim, w);
    ok & finite_rows(s, y, n, dim)
}

// Rotation of the heads of each token, in place.
pub fn rotate_finite(
    s: &mut [f32],
    x: usize,
    tokens: usize,
    heads: usize,
    half: usize,
    gw: usize,
    side: usize,
    cos: &[f32],
    sin: &[f32],
    ok: bool,
) -> bool
    ensures { Tried (rotate_fits (length s.old) (length cos.now) (length sin.now) x tokens heads half gw side)
        s.old s.new x (tokens * (heads * (half + half)))
        (rotate_of tokens heads half gw side cos.now sin.now (region s.old x (tokens * (heads * (half + half))))) ok result }
{
    rotate(s, x, tokens, heads, half, gw, side, cos, sin);
    ok & finite_heads(s, x, tokens, heads, half)
}

// The same by tables of rows and of columns.
pub fn rotate_axes_finite(
    s: &mut [f32],
    x: usize,
    tokens: usize,
    heads: usize,
    half: usize,
    gw: usize,
    side: usize,
    row_cos: &[f32],
    row_sin: &[f32],
    column_cos: &[f32],
    column_sin: &[f32],
    ok: bool,
) -> bool
    ensures { Tried (axes_fit (length s.old) (length row_cos.now) (length row_sin.now) (length column_cos.now) (length column_sin.now) x tokens heads half gw side)
        s.old s.new x (tokens * (heads * (half + half)))
        (rotate_of tokens heads half gw side (expand side (half / 2) row_cos.now column_cos.now) (expand side (half / 2) row_sin.now column_sin.now)
        (region s.old x (tokens * (heads * (half + half))))) ok result }
{
    rotate_axes(
        s, x, tokens, heads, half, gw, side, row_cos, row_sin, column_cos, column_sin,
    );
    ok & finite_heads(s, x, tokens, heads, half)
}

pub fn add_finite(s: &mut [f32], y: usize, z: usize, n: usize, ok: bool) -> bool
    ensures { Tried (pair_fits (length s.old) y z n) s.old s.new y n
        (added n (region s.old y n) (region s.old z n)) ok result }
{
    add_into(s, y, z, n);
    ok & finite_at(s, y, n)
}

// silu of the gate, times up.
pub fn gate_finite(s: &mut [f32], y: usize, z: usize, n: usize, ok: bool) -> bool
    ensures { Tried (pair_fits (length s.old) y z n) s.old s.new y n
        (gated n (region s.old y n) (region s.old z n)) ok result }
{
    gate(s, y, z, n);
    ok & finite_at(s, y, n)
}

pub fn gelu_finite(s: &mut [f32], y: usize, n: usize, ok: bool) -> bool
    ensures { Tried (R.inside (length s.old) y n) s.old s.new y n (gelued n (region s.old y n)) ok result }
{
    gelu_inplace(s, y, n);
    ok & finite_at(s, y, n)
}

pub fn round_finite(s: &mut [f32], y: usize, n: usize, ok: bool) -> bool
    ensures { Tried (R.inside (length s.old) y n) s.old s.new y n (rounded n (region s.old y n)) ok result }
{
    truncate_to_bf16_inplace(s, y, n);
    ok & finite_at(s, y, n)
}
