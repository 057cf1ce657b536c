// Weighted sums by two rows of weights at once: each value is read once for both.
ghost use Rattle.std.specs.Prelude.{◌≡◌, cond, ◌+◌, ◌≤◌, length};
ghost use Rattle.buffers.specs.Rows.{tab};
ghost use Rattle.encoder_linear.specs.Linear.{column_of};
ghost use Rattle.encoder_linear.specs.inner.Weighed.{weighed_pair};
ghost use Rattle.encoder_linear.specs.inner.Room.{weigh_pair_fits};
ghost use Rattle.encoder_linear.specs.inner.Fits.{WideFits};
ghost use Rattle.encoder_linear.specs.inner.Values as P;

use crate::lanes::{Four, Two, add_products, put_lanes};
use crate::level::wide;
use crate::values::Values;
use buffers::part;

// Sixteen sums by the weights p and sixteen by r: those at the places o to o + 15.
pub(crate) fn wide_pair(p: &[f32], r: &[f32], v: &[f32], o: usize, dim: usize) -> Two
    requires { WideFits 16 (length p.now) (length r.now) (length v.now) o dim }
    ensures { (result.first ≡ tab 16 (λ l. column_of (length p.now) dim (o + l) p.now v.now))
        × (result.second ≡ tab 16 (λ l. column_of (length p.now) dim (o + l) r.now v.now)) }
{
    let mut b = [0.0f32; 16];
    let mut c = [0.0f32; 16];
    let mut a = o;
    for j in 0..p.len() {
        let t = p[j];
        let u = r[j];
        let next = add_products(b, v, a, t);
        let other = add_products(c, v, a, u);
        b = next;
        c = other;
        a += dim;
    }
    Two {
        first: b,
        second: c,
    }
}

// Thirty-two sums by the weights p and thirty-two by r: those at the places o to o + 31, sixteen and sixteen.
pub(crate) fn wider_pair(p: &[f32], r: &[f32], v: &[f32], o: usize, dim: usize) -> Four
    requires { WideFits 32 (length p.now) (length r.now) (length v.now) o dim }
    ensures { (result.first ≡ tab 16 (λ l. column_of (length p.now) dim (o + l) p.now v.now))
        × (result.second ≡ tab 16 (λ l. column_of (length p.now) dim (o + 16 + l) p.now v.now))
        × (result.third ≡ tab 16 (λ l. column_of (length p.now) dim (o + l) r.now v.now))
        × (result.fourth ≡ tab 16 (λ l. column_of (length p.now) dim (o + 16 + l) r.now v.now)) }
{
    let mut b = [0.0f32; 16];
    let mut c = [0.0f32; 16];
    let mut d = [0.0f32; 16];
    let mut e = [0.0f32; 16];
    let mut a = o;
    for j in 0..p.len() {
        let t = p[j];
        let u = r[j];
        let b2 = add_products(b, v, a, t);
        let c2 = add_products(c, v, a + 16, t);
        let d2 = add_products(d, v, a, u);
        let e2 = add_products(e, v, a + 16, u);
        b = b2;
        c = c2;
        d = d2;
        e = e2;
        a += dim;
    }
    Four {
        first: b,
        second: c,
        third: d,
        fourth: e,
    }
}

impl Values {
    // The sums at the sixteen places from o on.
    pub(crate) fn pair_sixteen(self, s: &mut [f32], a: usize, b: usize, x: usize, y: usize)
        requires { P.PairFits (length s.old) self a b x y 16 }
        ensures { s.new ≡ P.pair self s.old a b x y 16 }
    {
        let n = self.t * self.dim;
        let both = wide_pair(
            part(s, a, self.t),
            part(s, b, self.t),
            part(s, self.v, n),
            self.o,
            self.dim,
        );
        let f = both.first;
        let g = both.second;
        put_lanes(s, x, f);
        put_lanes(s, y, g);
    }

    // The sums at the thirty-two places from o on.
    pub(crate) fn pair_thirty_two(self, s: &mut [f32], a: usize, b: usize, x: usize, y: usize)
        requires { P.PairFits (length s.old) self a b x y 32 }
        ensures { s.new ≡ P.pair self s.old a b x y 32 }
    {
        let n = self.t * self.dim;
        let after = x + 16;
        let next = y + 16;
        let both = wider_pair(
            part(s, a, self.t),
            part(s, b, self.t),
            part(s, self.v, n),
            self.o,
            self.dim,
        );
        let f = both.first;
        let g = both.second;
        let h = both.third;
        let i = both.fourth;
        put_lanes(s, x, f);
        put_lanes(s, after, g);
        put_lanes(s, y, h);
        put_lanes(s, next, i);
    }

    // Sixteen at a time, or thirty-two where registers are wide, while there are as many; how many of each were written.
    pub(crate) fn pair_wide(self, s: &mut [f32], a: usize, b: usize, x: usize, y: usize) -> usize
        requires { P.PairFits (length s.old) self a b x y self.hd }
        ensures { (result ≤ self.hd) × (s.new ≡ P.pair self s.old a b x y result) }
    {
        // The steps are of thirty-two and of sixteen: no range or chunk counts so.
        let mut d = 0usize;
        while 16 <= self.hd - d {
            let here = Values {
                o: self.o + d,
                ..self
            };
            if 32 <= self.hd - d && wide() {
                here.pair_thirty_two(s, a, b, x + d, y + d);
                d += 32;
            } else {
                here.pair_sixteen(s, a, b, x + d, y + d);
                d += 16;
            }
        }
        d
    }

    pub(crate) fn pair_all(self, s: &mut [f32], a: usize, b: usize, x: usize, y: usize)
        requires { P.PairFits (length s.old) self a b x y self.hd }
        ensures { s.new ≡ P.pair self s.old a b x y self.hd }
    {
        let d = self.pair_wide(s, a, b, x, y);
        let rest = Values {
            hd: self.hd - d,
            o: self.o + d,
            ..self
        };
        rest.weigh_rest(s, a, x + d);
        rest.weigh_rest(s, b, y + d);
    }
}

// The t weights at a, and the t at b, by the t rows of dim at v: the sums at the hd places from o on, written at x and
// at y.
pub fn weigh_pair(
    s: &mut [f32],
    a: usize,
    b: usize,
    v: usize,
    x: usize,
    y: usize,
    t: usize,
    dim: usize,
    hd: usize,
    o: usize,
)
    ensures { s.new ≡ cond (weigh_pair_fits (length s.old) a b v x y t dim hd o)
        (weighed_pair s.old a b v x y t dim hd o) s.old }
{
    let values = Values { v, t, dim, hd, o };
    if values.weigh_pair_fits(s.len(), a, b, x, y) {
        values.pair_all(s, a, b, x, y);
    }
}
