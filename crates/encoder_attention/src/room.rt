// Whether what the attention is handed fits. No test forms a number that could wrap.
ghost use Rattle.std.specs.Prelude.{◌≡◌};
ghost use Rattle.encoder_attention.specs.inner.Room as R;

use crate::places::Places;
use buffers::room::{aside, inside, rows_inside};

pub(crate) fn three_aside(q: usize, k: usize, v: usize, n: usize, at: usize, m: usize) -> bool
    ensures { result ≡ R.three_aside q k v n at m }
{
    (aside(q, n, at, m) & aside(k, n, at, m)) & aside(v, n, at, m)
}

impl Places {
    // Each of n floats, and the score row.
    pub(crate) fn placed(self, len: usize, n: usize) -> bool
        ensures { result ≡ R.places_fit len self.q self.k self.v self.row self.out self.t n }
    {
        let held = (inside(len, self.k, n) & inside(len, self.v, n))
            & (inside(len, self.out, n) & inside(len, self.row, self.t));
        let apart = three_aside(self.q, self.k, self.v, n, self.row, self.t)
            & three_aside(self.q, self.k, self.v, n, self.out, n);
        held & (apart & aside(self.out, n, self.row, self.t))
    }

    // And the keys, which stand at k and are to be turned.
    pub(crate) fn fits(self, len: usize, k: usize) -> bool
        ensures { result ≡ R.attend_fits len self.q k self.v self.k self.row self.out self.t self.heads self.hd }
    {
        if rows_inside(len, 0, self.heads, self.hd) {
            let dim = self.heads * self.hd;
            if rows_inside(len, self.q, self.t, dim) {
                let n = self.t * dim;
                let placed = self.placed(len, n);
                return placed & (inside(len, k, n) & three_aside(self.q, k, self.v, n, self.k, n));
            }
        }
        false
    }

    // Whether the n floats at k have room for a head's values and two score rows, once the keys are turned.
    pub(crate) fn spare(self, k: usize, n: usize) -> bool
        ensures { result ≡ R.spare_fits self.q k self.v self.out n self.heads self.hd }
    {
        ((2 <= self.heads) & (2 <= self.hd)) & three_aside(self.q, self.v, self.out, n, k, n)
    }
}
