// Weighted sums.
ghost use Rattle.std.specs.Prelude.{◌≡◌, ◌+◌, ◌*◌, ◌<◌, ◌≤◌, length};
ghost use Rattle.buffers.specs.Rows.{tab};
ghost use Rattle.buffers.specs.Region.{region, put};
ghost use Rattle.buffers.specs.inner.Room.{where_fits};
ghost use Rattle.encoder_linear.specs.Linear.{column_of, weighed_row};
ghost use Rattle.encoder_linear.specs.inner.Room.{weigh_fits};
ghost use Rattle.encoder_linear.specs.inner.Values as P;

use crate::lanes::{add_products, copy_spread};
use crate::values::Values;
use buffers::part;

// The weighted sum of the values at place o of each row of dim.
pub(crate) fn column(p: &[f32], v: &[f32], o: usize, dim: usize) -> f32
    requires { (length v.now ≡ length p.now * dim) × (o < dim) }
    ensures { result ≡ column_of (length p.now) dim o p.now v.now }
{
    let mut acc = 0.0f32;
    let mut a = o;
    for j in 0..p.len() {
        acc = acc + p[j] * v[a];
        a += dim;
    }
    acc
}

// Sixteen such sums side by side: those at the places o to o + 15.
pub(crate) fn wide(p: &[f32], v: &[f32], o: usize, dim: usize) -> [f32; 16]
    requires { (length v.now ≡ length p.now * dim) × (o + 16 ≤ dim) }
    ensures { result ≡ tab 16 (λ l. column_of (length p.now) dim (o + l) p.now v.now) }
{
    let mut b = [0.0f32; 16];
    let mut a = o;
    for j in 0..p.len() {
        let t = p[j];
        let next = add_products(b, v, a, t);
        b = next;
        a += dim;
    }
    b
}

impl Values {
    // The sums of a head, sixteen by sixteen while there are as many; how many were written.
    pub(crate) fn weigh_wide(self, s: &mut [f32], row: usize, out: usize) -> usize
        requires { P.WeighFits (length s.old) self row out }
        ensures { (result ≤ self.hd) × (s.new ≡ put s.old out (P.sums self s.old row result)) }
    {
        let n = self.t * self.dim;
        let turns = self.hd / 16;
        for k in 0..turns {
            let d = k * 16;
            let b = wide(
                part(s, row, self.t),
                part(s, self.v, n),
                self.o + d,
                self.dim,
            );
            copy_spread(s, out + d, 1, &b, 0, 1, 16);
        }
        turns * 16
    }

    // The sums of a head, one after another.
    pub(crate) fn weigh_rest(self, s: &mut [f32], row: usize, out: usize)
        requires { P.WeighFits (length s.old) self row out }
        ensures { s.new ≡ put s.old out (P.sums self s.old row self.hd) }
    {
        let n = self.t * self.dim;
        for d in 0..self.hd {
            let x = column(
                part(s, row, self.t),
                part(s, self.v, n),
                self.o + d,
                self.dim,
            );
            s[out + d] = x;
        }
    }

    pub(crate) fn weigh_all(self, s: &mut [f32], row: usize, out: usize)
        requires { P.WeighFits (length s.old) self row out }
        ensures { s.new ≡ put s.old out (P.sums self s.old row self.hd) }
    {
        let d = self.weigh_wide(s, row, out);
        let rest = Values {
            hd: self.hd - d,
            o: self.o + d,
            ..self
        };
        rest.weigh_rest(s, row, out + d);
    }
}

// The t weights at row by the t rows of dim at v: the sums at the hd places from o on, written at out.
pub fn weigh(
    s: &mut [f32],
    row: usize,
    v: usize,
    out: usize,
    t: usize,
    dim: usize,
    hd: usize,
    o: usize,
)
    ensures { s.new ≡ where_fits (weigh_fits (length s.old) row v out t dim hd o)
        s.old out (weighed_row t dim hd o (region s.old row t) (region s.old v (t * dim))) }
{
    let values = Values { v, t, dim, hd, o };
    if values.weigh_fits(s.len(), row, out) {
        values.weigh_all(s, row, out);
    }
}
