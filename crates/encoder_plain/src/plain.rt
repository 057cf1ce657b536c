// The loops of the source's `pixtral_attention_forward` over one head after another, in its order and by its names. Its q, k, v,
// scores and attn_output are places in the scratch, q, k, v, row and out; the matrix of scores serves one head and then the next.
ghost use Rattle.std.specs.Prelude.{◌≡◌, ◌&&◌, cond, ◌+◌, ◌*◌, ◌≤◌, ◌<◌, length, get_or};
ghost use Rattle.std.specs.Float.{nan, binary32};
ghost use Rattle.std.specs.Float.Ieee.{mul};
ghost use Rattle.number_floats.specs.Constants.{zero32};
ghost use Rattle.buffers.specs.Rows.{tab};
ghost use Rattle.buffers.specs.Region.{region, put, put_rows};
ghost use Rattle.buffers.specs.Each.{blank};
ghost use Rattle.encoder_kernels.specs.Kernels.{all_finite};
ghost use Rattle.encoder_linear.specs.Linear.{sum_of};
ghost use Rattle.encoder_softmax.specs.Softmax.{exp_less, softmax_of};
ghost use Rattle.encoder_plain.specs.Plain.{floats, off, score, scores, soft_rows, sums, all_scores, plain_of};
ghost use Rattle.encoder_plain.specs.inner.Fits.{ScoresFit, SumsFit, PlainFits};
ghost use Rattle.encoder_plain.specs.inner.Room.{plain_fits};
ghost use Rattle.encoder_attention.specs.inner.Places as P;

use crate::room::plain_fits;
use buffers::{clear_at, part};
use encoder_attention::places::Places;
use encoder_kernels::finite::finite;
use encoder_softmax::softmax::{inverse, row_max, scale_row};
use number_exp_tanh::exp::exp_f32;

// dot += q[q_off + d] * k[k_off + d], from +0 on.
pub(crate) fn dot(s: &[f32], a: usize, b: usize, n: usize) -> f32
    requires { (a + n ≤ length s.now) × (b + n ≤ length s.now) }
    ensures { result ≡ sum_of n (λ d. mul binary32 (get_or s.now (a + d) nan) (get_or s.now (b + d) nan)) }
{
    let mut dot = 0.0f32;
    for d in 0..n {
        dot = dot + s[a + d] * s[b + d];
    }
    dot
}

// Row qi of head h's matrix: for each ki the dot product, times the scaling.
pub(crate) fn score_row(s: &mut [f32], p: Places, h: usize, qi: usize)
    requires { ScoresFit (length s.old) p.q p.k p.row p.t p.heads p.hd × (h < p.heads) × (qi < p.t) }
    ensures { s.new ≡ put s.old (p.row + qi * p.t) (tab p.t (score p.t p.heads p.hd p.scaling (P.queries p s.old) (region s.old p.k (P.floats p)) h qi)) }
{
    let dim = p.heads * p.hd;
    let o = h * p.hd;
    let row = p.row + qi * p.t;
    let q_off = p.q + (qi * dim + o);
    for ki in 0..p.t {
        let k_off = p.k + (ki * dim + o);
        s[row + ki] = dot(s, q_off, k_off, p.hd) * p.scaling;
    }
}

// Head h's matrix, row after row.
pub(crate) fn score_rows(s: &mut [f32], p: Places, h: usize)
    requires { ScoresFit (length s.old) p.q p.k p.row p.t p.heads p.hd × (h < p.heads) }
    ensures { s.new ≡ put s.old p.row (scores p.t p.heads p.hd p.scaling (P.queries p s.old) (region s.old p.k (P.floats p)) h) }
{
    for qi in 0..p.t {
        score_row(s, p, h, qi);
    }
}

// *sv = exp(*sv - max_val), and sum += *sv.
pub(crate) fn exp_sum(s: &mut [f32], row: usize, n: usize, max_val: f32) -> f32
    requires { row + n ≤ length s.old }
    ensures value { result ≡ sum_of n (λ i. get_or (exp_less n max_val (region s.old row n)) i nan) }
    ensures s_after { s.new ≡ put s.old row (exp_less n max_val (region s.old row n)) }
{
    let mut sum = 0.0f32;
    for i in 0..n {
        let sv = exp_f32(s[row + i] - max_val);
        s[row + i] = sv;
        sum = sum + sv;
    }
    sum
}

// The softmax of one row.
pub(crate) fn softmax_row(s: &mut [f32], row: usize, n: usize)
    requires { row + n ≤ length s.old }
    ensures { s.new ≡ put s.old row (softmax_of n (region s.old row n)) }
{
    let max_val = row_max(part(s, row, n));
    let sum = exp_sum(s, row, n, max_val);
    let inv_sum = inverse(sum);
    scale_row(s, row, n, inv_sum);
}

// And of each row of the matrix.
pub(crate) fn softmax_rows(s: &mut [f32], m: usize, t: usize)
    requires { m + t * t ≤ length s.old }
    ensures { s.new ≡ put s.old m (soft_rows t (region s.old m (t * t))) }
{
    for qi in 0..t {
        softmax_row(s, m + qi * t, t);
    }
}

// sum += scores[qi * num_tokens + vi] * v[v_off + d], from +0 on: the row of weights stands at p, and e is the place in each of
// the values at v.
pub(crate) fn weighed(s: &[f32], p: usize, v: usize, t: usize, dim: usize, e: usize) -> f32
    requires { (p + t ≤ length s.now) × (v + t * dim ≤ length s.now) × (e < dim) }
    ensures { result ≡ sum_of t (λ vi. mul binary32 (get_or s.now (p + vi) nan) (get_or s.now (v + (vi * dim + e)) nan)) }
{
    let mut sum = 0.0f32;
    for vi in 0..t {
        sum = sum + s[p + vi] * s[v + (vi * dim + e)];
    }
    sum
}

// The weighted sums of query qi in head h.
pub(crate) fn sum_row(s: &mut [f32], p: Places, h: usize, qi: usize)
    requires { SumsFit (length s.old) p.v p.row p.out p.t p.heads p.hd × (h < p.heads) × (qi < p.t) }
    ensures { s.new ≡ put s.old (p.out + off p.t p.heads p.hd qi h) (sums p.t p.heads p.hd (P.values p s.old) (region s.old p.row (p.t * p.t)) h qi) }
{
    let dim = p.heads * p.hd;
    let o = h * p.hd;
    let row = p.row + qi * p.t;
    let out_off = p.out + (qi * dim + o);
    for d in 0..p.hd {
        s[out_off + d] = weighed(s, row, p.v, p.t, dim, o + d);
    }
}

// And of every query.
pub(crate) fn sum_rows(s: &mut [f32], p: Places, h: usize)
    requires { SumsFit (length s.old) p.v p.row p.out p.t p.heads p.hd × (h < p.heads) }
    ensures { s.new ≡ put_rows s.old p.t (λ qi. p.out + off p.t p.heads p.hd qi h) (sums p.t p.heads p.hd (P.values p s.old) (region s.old p.row (p.t * p.t)) h) }
{
    for qi in 0..p.t {
        sum_row(s, p, h, qi);
    }
}

// One head: its matrix of scores, softmax per row, weighted sums. Says whether every score was finite.
pub(crate) fn one_head(s: &mut [f32], p: Places, h: usize) -> bool
    requires { PlainFits (length s.old) p.q p.k p.v p.row p.out p.t p.heads p.hd × (h < p.heads) }
    ensures value { result ≡ all_finite (scores p.t p.heads p.hd p.scaling (P.queries p s.old) (region s.old p.k (P.floats p)) h) }
    ensures s_after { blank zero32 p.row (p.t * p.t) s.new ≡ put_rows (blank zero32 p.row (p.t * p.t) s.old) p.t (λ qi. p.out + off p.t p.heads p.hd qi h)
        (sums p.t p.heads p.hd (P.values p s.old) (soft_rows p.t (scores p.t p.heads p.hd p.scaling (P.queries p s.old) (region s.old p.k (P.floats p)) h)) h) }
{
    score_rows(s, p, h);
    let ok = finite(part(s, p.row, p.t * p.t));
    softmax_rows(s, p.row, p.t);
    sum_rows(s, p, h);
    ok
}

// Every head, one after another.
pub(crate) fn every_head(s: &mut [f32], p: Places) -> bool
    requires { PlainFits (length s.old) p.q p.k p.v p.row p.out p.t p.heads p.hd }
    ensures value { result ≡ all_finite (all_scores p.t p.heads p.hd p.scaling (P.queries p s.old) (region s.old p.k (P.floats p))) }
    ensures s_after { blank zero32 p.row (p.t * p.t) s.new ≡ put (blank zero32 p.row (p.t * p.t) s.old) p.out
        (plain_of p.t p.heads p.hd p.scaling (P.queries p s.old) (region s.old p.k (P.floats p)) (P.values p s.old)) }
{
    let mut ok = true;
    for h in 0..p.heads {
        let here = one_head(s, p, h);
        ok = ok & here;
    }
    ok
}

// The attention's sums at out. Says whether all fits and every scaled score was finite; the matrix at m is then +0.
pub fn attend_plain(
    s: &mut [f32],
    q: usize,
    k: usize,
    v: usize,
    m: usize,
    out: usize,
    t: usize,
    heads: usize,
    hd: usize,
    scaling: f32,
) -> bool
    ensures value { result ≡ (plain_fits (length s.old) q k v m out t heads hd
        && all_finite (all_scores t heads hd scaling (region s.old q (floats t heads hd)) (region s.old k (floats t heads hd)))) }
    ensures s_after { s.new ≡ cond (plain_fits (length s.old) q k v m out t heads hd)
        (put (blank zero32 m (t * t) s.old) out
        (plain_of t heads hd scaling (region s.old q (floats t heads hd)) (region s.old k (floats t heads hd)) (region s.old v (floats t heads hd))))
        s.old }
{
    let p = Places {
        q,
        k,
        v,
        row: m,
        out,
        t,
        heads,
        hd,
        scaling,
    };
    if plain_fits(s.len(), p) {
        let ok = every_head(s, p);
        clear_at(s, m, t * t);
        return ok;
    }
    false
}
