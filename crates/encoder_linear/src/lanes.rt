// Sixteen sums side by side. Each runs upward by itself, so that its bits are those of one sum alone.
ghost use Rattle.std.specs.Prelude.{◌≡◌, ◌+◌, ◌*◌, ◌≤◌, length, get_or, replicate};
ghost use Rattle.std.specs.Float.{nan, binary32};
ghost use Rattle.std.specs.Float.Ieee.{add, mul};
ghost use Rattle.number_floats.specs.Constants.{zero32};
ghost use Rattle.buffers.specs.Rows.{tab};
ghost use Rattle.buffers.specs.Region.{put};
ghost use Rattle.encoder_linear.specs.inner.Lanes.{lane_of, spread, filled};
ghost use Rattle.encoder_linear.specs.inner.Fits.{TwoFit, FourFit, LanesAt, StrideFits, PackFits, SpreadFits};
ghost use Rattle.encoder_linear.specs.inner.Strip as P;

use crate::strip::Strip;
use buffers::part;

// Each lane and its product with t.
pub(crate) fn add_products(a: [f32; 16], xt: &[f32], j: usize, t: f32) -> [f32; 16]
    requires { (length a ≡ 16) × (j + 16 ≤ length xt.now) }
    ensures { result ≡ tab 16 (λ l. add binary32 (get_or a l nan) (mul binary32 (get_or xt.now (j + l) nan) t)) }
{
    let mut b = a;
    for l in 0..16 {
        b[l] = b[l] + xt[j + l] * t;
    }
    b
}

// The lanes, from a on, by all of w.
pub(crate) fn lanes(a: [f32; 16], xt: &[f32], w: &[f32]) -> [f32; 16]
    requires { (length a ≡ 16) × (length w.now * 16 ≤ length xt.now) }
    ensures { result ≡ tab 16 (lane_of (length w.now) a xt.now w.now) }
{
    let mut b = a;
    for k in 0..w.len() {
        let t = w[k];
        let next = add_products(b, xt, k * 16, t);
        b = next;
    }
    b
}

// Sixteen sums by one row of weights, and sixteen by another.
#[derive(Drop)]
pub(crate) struct Two {
    pub(crate) first: [f32; 16],
    pub(crate) second: [f32; 16],
}

// The lanes of a by all of w, and those of b by all of v: one read of xt serves both.
pub(crate) fn two_lanes(a: [f32; 16], b: [f32; 16], xt: &[f32], w: &[f32], v: &[f32]) -> Two
    requires { TwoFit a b (length xt.now) (length w.now) (length v.now) }
    ensures { (result.first ≡ tab 16 (lane_of (length w.now) a xt.now w.now))
        × (result.second ≡ tab 16 (lane_of (length w.now) b xt.now v.now)) }
{
    let mut c = a;
    let mut d = b;
    for k in 0..w.len() {
        let t = w[k];
        let u = v[k];
        let next = add_products(c, xt, k * 16, t);
        let other = add_products(d, xt, k * 16, u);
        c = next;
        d = other;
    }
    Two {
        first: c,
        second: d,
    }
}

// Sixteen sums by each of four rows of weights.
#[derive(Drop)]
pub(crate) struct Four {
    pub(crate) first: [f32; 16],
    pub(crate) second: [f32; 16],
    pub(crate) third: [f32; 16],
    pub(crate) fourth: [f32; 16],
}

// The lanes of a by all of w, those of b by all of v, those of c by all of u and those of d by all of p: one read of xt
// serves all four.
pub(crate) fn four_lanes(
    a: [f32; 16],
    b: [f32; 16],
    c: [f32; 16],
    d: [f32; 16],
    xt: &[f32],
    w: &[f32],
    v: &[f32],
    u: &[f32],
    p: &[f32],
) -> Four
    requires { FourFit a b c d (length xt.now) (length w.now) (length v.now) (length u.now) (length p.now) }
    ensures { (result.first ≡ tab 16 (lane_of (length w.now) a xt.now w.now))
        × (result.second ≡ tab 16 (lane_of (length w.now) b xt.now v.now))
        × (result.third ≡ tab 16 (lane_of (length w.now) c xt.now u.now))
        × (result.fourth ≡ tab 16 (lane_of (length w.now) d xt.now p.now)) }
{
    let mut e = a;
    let mut f = b;
    let mut g = c;
    let mut h = d;
    for k in 0..w.len() {
        let j = k * 16;
        let e2 = add_products(e, xt, j, w[k]);
        let f2 = add_products(f, xt, j, v[k]);
        let g2 = add_products(g, xt, j, u[k]);
        let h2 = add_products(h, xt, j, p[k]);
        e = e2;
        f = f2;
        g = g2;
        h = h2;
    }
    Four {
        first: e,
        second: f,
        third: g,
        fourth: h,
    }
}

// v[o], v[o + q], .. to d[at], d[at + m], ..: n of them.
pub(crate) fn copy_spread(
    d: &mut [f32],
    at: usize,
    m: usize,
    v: &[f32],
    o: usize,
    q: usize,
    n: usize,
)
    requires { StrideFits (length d.old) at m (length v.now) o q n }
    ensures { d.new ≡ spread d.old at m n (λ i. get_or v.now (o + i * q) nan) }
{
    for i in 0..n {
        d[at + i * m] = v[o + i * q];
    }
}

// The lanes of a, over the sixteen floats at at.
pub(crate) fn put_lanes(s: &mut [f32], at: usize, a: [f32; 16])
    requires { (length a ≡ 16) × (at + 16 ≤ length s.old) }
    ensures { s.new ≡ put s.old at a }
{
    let e = at + 16;
    s[at..e].copy_from_slice(&a);
}

// The n floats at at of each of r rows, one row to each of m lanes.
pub(crate) fn pack(xt: &mut [f32], m: usize, x: &[f32], at: usize, r: usize, nin: usize, n: usize)
    requires { PackFits (length xt.old) m (length x.now) at r nin n }
    ensures { xt.new ≡ filled xt.old 0 m n r (λ k l. get_or x.now (at + l * nin + k) nan) }
{
    for l in 0..r {
        copy_spread(xt, l, m, x, at + l * nin, 1, n);
    }
}

// Sixteen lanes with the first r floats at a, a + m, .., and as many at b, c and d: row by row, since four columns of a row
// lie together, and rows whose stride is a power of two drive each other out of the cache.
pub(crate) fn lanes_at(
    s: &[f32],
    a: usize,
    b: usize,
    c: usize,
    d: usize,
    m: usize,
    r: usize,
) -> Four
    requires { LanesAt (length s.now) a b c d m r }
    ensures { (result.first ≡ spread (replicate 16 zero32) 0 1 r (λ i. get_or s.now (a + i * m) nan))
        × (result.second ≡ spread (replicate 16 zero32) 0 1 r (λ i. get_or s.now (b + i * m) nan))
        × (result.third ≡ spread (replicate 16 zero32) 0 1 r (λ i. get_or s.now (c + i * m) nan))
        × (result.fourth ≡ spread (replicate 16 zero32) 0 1 r (λ i. get_or s.now (d + i * m) nan)) }
{
    let mut first = [0.0f32; 16];
    let mut second = [0.0f32; 16];
    let mut third = [0.0f32; 16];
    let mut fourth = [0.0f32; 16];
    for i in 0..r {
        let o = i * m;
        first[i] = s[a + o];
        second[i] = s[b + o];
        third[i] = s[c + o];
        fourth[i] = s[d + o];
    }
    Four {
        first,
        second,
        third,
        fourth,
    }
}

// The first r lanes of a, b, c and d to columns at, at + 1, at + 2 and at + 3 of rows of m.
pub(crate) fn spread_four(
    s: &mut [f32],
    at: usize,
    m: usize,
    r: usize,
    a: [f32; 16],
    b: [f32; 16],
    c: [f32; 16],
    d: [f32; 16],
)
    requires { SpreadFits (length s.old) at m r (length a) (length b) (length c) (length d) }
    ensures { s.new ≡ spread (spread (spread (spread s.old at m r (λ l. get_or a l nan)) (at + 1) m r (λ l. get_or b l nan))
        (at + 2) m r (λ l. get_or c l nan)) (at + 3) m r (λ l. get_or d l nan) }
{
    let f = a;
    let g = b;
    let h = c;
    let i = d;
    copy_spread(s, at, m, &f, 0, 1, r);
    copy_spread(s, at + 1, m, &g, 0, 1, r);
    copy_spread(s, at + 2, m, &h, 0, 1, r);
    copy_spread(s, at + 3, m, &i, 0, 1, r);
}

impl Strip {
    // Column c of the r rows of sums at y goes on by n products: gathered into lanes, and spread again.
    pub(crate) fn one_column(self, s: &mut [f32], w: &[f32], xt: &[f32], c: usize)
        requires { P.Column (length s.old) (length w.now) (length xt.now) self c }
        ensures { s.new ≡ spread s.old (self.y + c) self.nout self.r (λ l. P.gone self s.old w.now xt.now l c) }
    {
        let mut a = [0.0f32; 16];
        copy_spread(&mut a, 0, 1, s, self.y + c, self.nout, self.r);
        let b = lanes(a, xt, part(w, c * self.nin + self.k, self.n));
        copy_spread(s, self.y + c, self.nout, &b, 0, 1, self.r);
    }

    // Columns c and c + 1.
    pub(crate) fn two_columns(self, s: &mut [f32], w: &[f32], xt: &[f32], c: usize)
        requires { P.Column (length s.old) (length w.now) (length xt.now) self (c + 1) }
        ensures { s.new ≡ spread (spread s.old (self.y + c) self.nout self.r (λ l. P.gone self s.old w.now xt.now l c))
            (self.y + (c + 1)) self.nout self.r (λ l. P.gone self s.old w.now xt.now l (c + 1)) }
    {
        let d = c + 1;
        let at = self.y + c;
        let to = self.y + d;
        let mut a = [0.0f32; 16];
        let mut b = [0.0f32; 16];
        copy_spread(&mut a, 0, 1, s, at, self.nout, self.r);
        copy_spread(&mut b, 0, 1, s, to, self.nout, self.r);
        let both = two_lanes(
            a,
            b,
            xt,
            part(w, c * self.nin + self.k, self.n),
            part(w, d * self.nin + self.k, self.n),
        );
        let f = both.first;
        let g = both.second;
        copy_spread(s, at, self.nout, &f, 0, 1, self.r);
        copy_spread(s, to, self.nout, &g, 0, 1, self.r);
    }

    // Columns c to c + 3: all are gathered before one is spread.
    pub(crate) fn wide_columns(self, s: &mut [f32], w: &[f32], xt: &[f32], c: usize)
        requires { P.Wide (length s.old) (length w.now) (length xt.now) self c }
        ensures { s.new ≡ filled s.old (self.y + c) self.nout self.r 4 (λ l o. P.gone self s.old w.now xt.now l (c + o)) }
    {
        let at = self.y + c;
        let d = c + 1;
        let e = c + 2;
        let f = c + 3;
        let w0 = part(w, c * self.nin + self.k, self.n);
        let w1 = part(w, d * self.nin + self.k, self.n);
        let w2 = part(w, e * self.nin + self.k, self.n);
        let w3 = part(w, f * self.nin + self.k, self.n);
        let from = lanes_at(s, at, self.y + d, self.y + e, self.y + f, self.nout, self.r);
        let a0 = from.first;
        let a1 = from.second;
        let a2 = from.third;
        let a3 = from.fourth;
        let all = four_lanes(a0, a1, a2, a3, xt, w0, w1, w2, w3);
        let b0 = all.first;
        let b1 = all.second;
        let b2 = all.third;
        let b3 = all.fourth;
        spread_four(s, at, self.nout, self.r, b0, b1, b2, b3);
    }
}
