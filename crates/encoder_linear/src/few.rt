// A few rows, up to four: their sums with four rows of weights run side by side. Of the sixteen cells, o * 4 + l is the
// sum of row l by row o of the four.
ghost use Rattle.std.specs.Prelude.{◌≡◌, ◌+◌, ◌*◌, ◌/◌, ◌%◌, length, get_or};
ghost use Rattle.std.specs.Float.{nan, binary32};
ghost use Rattle.std.specs.Float.Ieee.{add, mul};
ghost use Rattle.buffers.specs.Rows.{tab};
ghost use Rattle.encoder_linear.specs.inner.Lanes.{cell_of, filled};
ghost use Rattle.encoder_linear.specs.inner.Fits.{CellFits, CellsFit, UnpackFits};
ghost use Rattle.encoder_linear.specs.inner.Strip as P;

use crate::lanes::{copy_spread, pack};
use crate::strip::Strip;

// Each cell and its product.
pub(crate) fn add_cells(
    a: [f32; 16],
    xt: &[f32],
    j: usize,
    w: &[f32],
    at: usize,
    nin: usize,
) -> [f32; 16]
    requires { CellFits (length a) (length xt.now) (length w.now) j at nin }
    ensures { result ≡ tab 16 (λ i. add binary32 (get_or a i nan) (mul binary32 (get_or xt.now (j + i % 4) nan) (get_or w.now (at + i / 4 * nin) nan))) }
{
    let mut b = a;
    for i in 0..16 {
        b[i] = b[i] + xt[j + i % 4] * w[at + i / 4 * nin];
    }
    b
}

// The cells, from a on, by n products each: the weights from at on, and those of the next three rows.
pub(crate) fn cells(
    a: [f32; 16],
    xt: &[f32],
    w: &[f32],
    at: usize,
    nin: usize,
    n: usize,
) -> [f32; 16]
    requires { CellsFit (length a) (length xt.now) (length w.now) at nin n }
    ensures { result ≡ tab 16 (cell_of n a xt.now w.now at nin) }
{
    let mut b = a;
    for k in 0..n {
        let next = add_cells(b, xt, k * 16, w, at + k, nin);
        b = next;
    }
    b
}

// The cells of b to four columns of r rows of nout.
pub(crate) fn unpack(s: &mut [f32], at: usize, nout: usize, r: usize, b: &[f32])
    requires { UnpackFits (length s.old) (length b.now) at nout r }
    ensures { s.new ≡ filled s.old at nout r 4 (λ l o. get_or b.now (l + o * 4) nan) }
{
    for l in 0..r {
        copy_spread(s, at + l * nout, 1, b, l, 4, 4);
    }
}

impl Strip {
    // Columns c to c + 3 of the r rows of sums at y go on by n products.
    pub(crate) fn four_columns(self, s: &mut [f32], w: &[f32], xt: &[f32], c: usize)
        requires { P.Four (length s.old) (length w.now) (length xt.now) self c }
        ensures { s.new ≡ filled s.old (self.y + c) self.nout self.r 4 (λ l o. P.gone self s.old w.now xt.now l (c + o)) }
    {
        let to = self.y + c;
        let mut a = [0.0f32; 16];
        pack(&mut a, 4, s, to, self.r, self.nout, 4);
        let b = cells(a, xt, w, c * self.nin + self.k, self.nin, self.n);
        unpack(s, to, self.nout, self.r, &b);
    }
}
