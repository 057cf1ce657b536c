// Whether what a sum is handed fits. No test forms a number that could wrap.
ghost use Rattle.std.specs.Prelude.{◌≡◌};
ghost use Rattle.encoder_linear.specs.inner.Room.{linear_fits, bias_fits, from_fits};
ghost use Rattle.encoder_linear.specs.inner.Room as R;

use crate::values::Values;
use buffers::room::{aside, inside, rows_inside};

pub(crate) fn linear_fits(
    lens: usize,
    lenw: usize,
    x: usize,
    y: usize,
    n: usize,
    nin: usize,
    nout: usize,
) -> bool
    ensures { result ≡ linear_fits lens lenw x y n nin nout }
{
    if rows_inside(lens, x, n, nin) & rows_inside(lens, y, n, nout) {
        return rows_inside(lenw, 0, nout, nin) & aside(x, n * nin, y, n * nout);
    }
    false
}

pub(crate) fn bias_fits(
    lens: usize,
    lenw: usize,
    lenb: usize,
    x: usize,
    y: usize,
    n: usize,
    nin: usize,
    nout: usize,
) -> bool
    ensures { result ≡ bias_fits lens lenw lenb x y n nin nout }
{
    linear_fits(lens, lenw, x, y, n, nin, nout) & (lenb == nout)
}

pub(crate) fn from_fits(
    lenx: usize,
    lens: usize,
    lenw: usize,
    y: usize,
    n: usize,
    nin: usize,
    nout: usize,
) -> bool
    ensures { result ≡ from_fits lenx lens lenw y n nin nout }
{
    let rows = rows_inside(lenx, 0, n, nin) & rows_inside(lens, y, n, nout);
    rows & rows_inside(lenw, 0, nout, nin)
}

impl Values {
    pub(crate) fn weigh_fits(self, len: usize, row: usize, out: usize) -> bool
        ensures { result ≡ R.weigh_fits len row self.v out self.t self.dim self.hd self.o }
    {
        if inside(self.dim, self.o, self.hd) & rows_inside(len, self.v, self.t, self.dim) {
            let held = inside(len, row, self.t) & inside(len, out, self.hd);
            return held
                & (aside(row, self.t, out, self.hd)
                    & aside(self.v, self.t * self.dim, out, self.hd));
        }
        false
    }

    pub(crate) fn weigh_pair_fits(self, len: usize, a: usize, b: usize, x: usize, y: usize) -> bool
        ensures { result ≡ R.weigh_pair_fits len a b self.v x y self.t self.dim self.hd self.o }
    {
        let each = self.weigh_fits(len, a, x) & self.weigh_fits(len, b, y);
        each & ((aside(a, self.t, y, self.hd) & aside(b, self.t, x, self.hd))
            & aside(x, self.hd, y, self.hd))
    }
}
