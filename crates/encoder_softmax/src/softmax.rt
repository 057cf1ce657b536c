// A row of scores becomes a row of weights.
ghost use Rattle.std.specs.Prelude.{◌≡◌, cond, ◌+◌, ◌≤◌, length};
ghost use Rattle.std.specs.Float.Ieee.{lt};
ghost use Rattle.buffers.specs.Region.{region, put};
ghost use Rattle.buffers.specs.inner.Room as R;
ghost use Rattle.encoder_softmax.specs.Softmax.{max_of, total_of, inverse_of, scaled, softmax_of};

use crate::soften::exp_row;
use buffers::part;
use buffers::room::inside;

// b where a < b, else a.
pub(crate) fn larger(a: f32, b: f32) -> f32
    ensures { result ≡ cond (lt a b) b a }
{
    if a < b { b } else { a }
}

// The largest value, from minus infinity on.
pub fn row_max(x: &[f32]) -> f32
    ensures { result ≡ max_of x.now }
{
    let mut m = -1.0f32 / 0.0;
    for v in x {
        m = larger(m, *v);
    }
    m
}

pub(crate) fn total(x: &[f32]) -> f32
    ensures { result ≡ total_of x.now }
{
    let mut acc = 0.0f32;
    for v in x {
        acc = acc + *v;
    }
    acc
}

// One over x, and 0 where x is not above 0.
pub fn inverse(x: f32) -> f32
    ensures { result ≡ inverse_of x }
{
    if 0.0 < x { 1.0 / x } else { 0.0 }
}

pub(crate) fn scale_floats(s: &mut [f32], y: usize, n: usize, m: f32)
    requires { y + n ≤ length s.old }
    ensures { s.new ≡ put s.old y (scaled n m (region s.old y n)) }
{
    for i in 0..n {
        s[y + i] = s[y + i] * m;
    }
}

// The row's scores become its weights.
pub(crate) fn soften_row(s: &mut [f32], row: usize, t: usize)
    requires { row + t ≤ length s.old }
    ensures { s.new ≡ put s.old row (softmax_of t (region s.old row t)) }
{
    let m = row_max(part(s, row, t));
    exp_row(s, row, t, m);
    let f = inverse(total(part(s, row, t)));
    scale_floats(s, row, t, f);
}

// Each of the n floats at y times m; nothing where they do not lie inside.
pub fn scale_row(s: &mut [f32], y: usize, n: usize, m: f32)
    ensures { s.new ≡ R.where_fits (R.inside (length s.old) y n) s.old y (scaled n m (region s.old y n)) }
{
    if inside(s.len(), y, n) {
        scale_floats(s, y, n, m);
    }
}

// The t scores at row become their weights; nothing where they do not lie inside.
pub fn softmax(s: &mut [f32], row: usize, t: usize)
    ensures { s.new ≡ R.where_fits (R.inside (length s.old) row t) s.old row (softmax_of t (region s.old row t)) }
{
    if inside(s.len(), row, t) {
        soften_row(s, row, t);
    }
}
