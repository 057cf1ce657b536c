// The linear layer with a bias: the finished sums, and then the bias.
ghost use Rattle.std.specs.Prelude.{◌≡◌, ◌+◌, ◌*◌, ◌≤◌, length};
ghost use Rattle.std.specs.Float.{nan, binary32};
ghost use Rattle.std.specs.Float.Ieee.{add};
ghost use Rattle.buffers.specs.Region.{region, put};
ghost use Rattle.buffers.specs.Each.{both};
ghost use Rattle.buffers.specs.inner.Room.{where_fits};
ghost use Rattle.encoder_linear.specs.Linear.{biased, carried, linear_by};
ghost use Rattle.encoder_linear.specs.inner.Room.{bias_fits};
ghost use Rattle.encoder_linear.specs.inner.Fits.{RowsFit};

use crate::linear::linear_rows;
use crate::room::bias_fits;

// The floats at y, each plus its own of b.
pub(crate) fn add_row(s: &mut [f32], y: usize, b: &[f32])
    requires { y + length b.now ≤ length s.old }
    ensures { s.new ≡ put s.old y (both nan (length b.now) (λ u v. add binary32 u v) (region s.old y (length b.now)) b.now) }
{
    for i in 0..b.len() {
        s[y + i] = s[y + i] + b[i];
    }
}

// The n rows of d at y, each plus b.
pub(crate) fn add_rows(s: &mut [f32], y: usize, n: usize, d: usize, b: &[f32])
    requires { RowsFit (length s.old) (length b.now) y n d }
    ensures { s.new ≡ put s.old y (biased n d b.now (region s.old y (n * d))) }
{
    let mut at = y;
    for r in 0..n {
        add_row(s, at, b);
        at += d;
    }
}

// The n rows of nin floats at x by the nout rows of w, plus b, written at y.
pub fn linear_forward(
    s: &mut [f32],
    x: usize,
    y: usize,
    n: usize,
    nin: usize,
    nout: usize,
    w: &[f32],
    b: &[f32],
)
    ensures { s.new ≡ where_fits (bias_fits (length s.old) (length w.now) (length b.now) x y n nin nout)
        s.old y (linear_by (carried b.now) n nin nout w.now (region s.old x (n * nin))) }
{
    if bias_fits(s.len(), w.len(), b.len(), x, y, n, nin, nout) {
        linear_rows(s, x, y, n, nin, nout, w);
        add_rows(s, y, n, nout, b);
    }
}
