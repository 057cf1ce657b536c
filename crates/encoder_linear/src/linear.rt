// The linear layer.
ghost use Rattle.std.specs.Prelude.{◌≡◌, ◌*◌, length};
ghost use Rattle.buffers.specs.Region.{region, put};
ghost use Rattle.encoder_linear.specs.Linear.{linear_of};
ghost use Rattle.buffers.specs.Rows.{grid};
ghost use Rattle.encoder_linear.specs.inner.Lanes.{gone_on};
ghost use Rattle.buffers.specs.inner.Room.{where_fits};
ghost use Rattle.encoder_linear.specs.inner.Room.{linear_fits, from_fits};
ghost use Rattle.encoder_linear.specs.inner.Fits.{UpTo, BlockFits, LinearFits, FromFits};
ghost use Rattle.encoder_linear.specs.inner.Strip as P;

use crate::lanes::pack;
use crate::level::wide;
use crate::room::{from_fits, linear_fits};
use crate::strip::Strip;
use buffers::{clear_at, part};

// How many of the n rows that are left are next: sixteen side by side, or four where few are left.
pub(crate) fn next_rows(n: usize) -> usize
    ensures { UpTo n 16 result }
{
    n.min(if n < 9 { 4 } else { 16 })
}

impl Strip {
    // The r rows of sums at y go on by n products: a lane of xt by the floats from k on of each of the nout rows of w, of few
    // rows four columns at a time, of more two, or four where registers are wide.
    pub(crate) fn columns(self, s: &mut [f32], w: &[f32], xt: &[f32])
        requires { P.Columns (length s.old) (length w.now) (length xt.now) self }
        ensures { s.new ≡ put s.old self.y (grid self.r self.nout (P.gone self s.old w.now xt.now)) }
    {
        // The steps are of four columns, of two and of one: no range or chunk counts so.
        let mut c = 0usize;
        while c < self.nout {
            if 4 <= self.nout - c {
                if self.r < 5 {
                    self.four_columns(s, w, xt, c);
                    c += 4;
                } else if wide() {
                    self.wide_columns(s, w, xt, c);
                    c += 4;
                } else {
                    self.two_columns(s, w, xt, c);
                    c += 2;
                }
            } else {
                self.one_column(s, w, xt, c);
                c += 1;
            }
        }
    }

    // The sums of the r rows at y go on by the n products from k on with the rows of x at xa.
    pub(crate) fn piece(self, x: &[f32], xa: usize, s: &mut [f32], w: &[f32])
        requires { P.Piece (length x.now) (length s.old) (length w.now) self xa }
        ensures { s.new ≡ put s.old self.y (gone_on self.k self.n self.r self.nin self.nout w.now (region x.now xa (self.r * self.nin)) (region s.old self.y (self.r * self.nout))) }
    {
        let mut xt = [0.0f32; 16384];
        pack(&mut xt, 16, x, xa + self.k, self.r, self.nin, self.n);
        self.columns(s, w, &xt);
    }
}

// Up to sixteen rows of x at xa, from +0 on, piece after piece.
pub(crate) fn block(
    x: &[f32],
    xa: usize,
    s: &mut [f32],
    y: usize,
    r: usize,
    nin: usize,
    nout: usize,
    w: &[f32],
)
    requires { BlockFits (length x.now) (length s.old) (length w.now) xa y r nin nout }
    ensures { s.new ≡ put s.old y (linear_of r nin nout w.now (region x.now xa (r * nin))) }
{
    clear_at(s, y, r * nout);
    for i in 0..nin.div_ceil(1024) {
        let k = i * 1024;
        let n = (nin - k).min(1024);
        let strip = Strip {
            y,
            r,
            nin,
            nout,
            k,
            n,
        };
        strip.piece(x, xa, s, w);
    }
}

// The n rows of x, block after block. The last blocks are smaller, so no range counts the turns.
pub(crate) fn from_rows(
    x: &[f32],
    s: &mut [f32],
    y: usize,
    n: usize,
    nin: usize,
    nout: usize,
    w: &[f32],
)
    requires { FromFits (length x.now) (length s.old) (length w.now) y n nin nout }
    ensures { s.new ≡ put s.old y (linear_of n nin nout w.now x.now) }
{
    let mut i = 0usize;
    while i < n {
        let r = next_rows(n - i);
        block(x, i * nin, s, y + i * nout, r, nin, nout, w);
        i += r;
    }
}

// The n rows at x: what holds them is lent apart from what holds their sums.
pub(crate) fn linear_rows(
    s: &mut [f32],
    x: usize,
    y: usize,
    n: usize,
    nin: usize,
    nout: usize,
    w: &[f32],
)
    requires { LinearFits (length s.old) (length w.now) x y n nin nout }
    ensures { s.new ≡ put s.old y (linear_of n nin nout w.now (region s.old x (n * nin))) }
{
    let many = n * nin;
    if x + many <= y {
        let (rows, sums) = s.split_at_mut(y);
        from_rows(part(rows, x, many), sums, 0, n, nin, nout, w);
    } else {
        let (sums, rows) = s.split_at_mut(x);
        from_rows(part(rows, 0, many), sums, y, n, nin, nout, w);
    }
}

// The n rows of nin floats of s at x by the nout rows of w, written at y.
pub fn linear_no_bias_forward(
    s: &mut [f32],
    x: usize,
    y: usize,
    n: usize,
    nin: usize,
    nout: usize,
    w: &[f32],
)
    ensures { s.new ≡ where_fits (linear_fits (length s.old) (length w.now) x y n nin nout)
        s.old y (linear_of n nin nout w.now (region s.old x (n * nin))) }
{
    if linear_fits(s.len(), w.len(), x, y, n, nin, nout) {
        linear_rows(s, x, y, n, nin, nout, w);
    }
}

// The first n rows of nin floats of x by the nout rows of w, written at y of s.
pub fn linear_from(x: &[f32], s: &mut [f32], y: usize, n: usize, nin: usize, nout: usize, w: &[f32])
    ensures { s.new ≡ where_fits (from_fits (length x.now) (length s.old) (length w.now) y n nin nout)
        s.old y (linear_of n nin nout w.now x.now) }
{
    if from_fits(x.len(), s.len(), w.len(), y, n, nin, nout) {
        from_rows(x, s, y, n, nin, nout, w);
    }
}
