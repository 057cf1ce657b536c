// The projector: norm, spatial merge, merging layer, linear_1, gelu, linear_2.
ghost use Rattle.std.specs.Prelude.{◌≡◌, ◌+◌, ◌*◌, ◌≤◌, eqb, length};
ghost use Rattle.buffers.specs.Region.{region, put};
ghost use Rattle.encoder_linear.specs.Linear.{linear_by};
ghost use Rattle.encoder_steps.specs.Run.{answer};
ghost use Rattle.encoder_steps.specs.inner.Step.{LinearAt, Wrote};
ghost use Rattle.encoder_run.specs.Stages.{merge_of, project_run};
ghost use Rattle.encoder_run.specs.inner.Live.{bias_at};
ghost use Rattle.encoder_run.specs.inner.Source.{source_of};
ghost use Rattle.encoder_run.specs.inner.Fits.{SourceFits, MergeFits, ProjFits};

use buffers::part;
use encoder_steps::{gelu_finite, linear_bias_finite, linear_finite, norm_finite};

// Where place p of the merged rows takes its value from.
pub(crate) fn source(p: usize, merge: usize, gh: usize, gw: usize, dim: usize) -> usize
    requires { SourceFits p merge gh gw dim }
    ensures { result ≡ source_of merge gw dim p }
{
    let mm = merge * merge;
    let row = dim * mm;
    let b = gw / merge;
    let o = p / row;
    let r = p % row;
    let k = r % mm;
    let th = o / b * merge + k / merge;
    let tw = o % b * merge + k % merge;
    (th * gw + tw) * dim + r / mm
}

// The merged rows of the tokens at x, at y.
pub(crate) fn merge_tokens(
    s: &mut [f32],
    x: usize,
    y: usize,
    total: usize,
    merge: usize,
    gh: usize,
    gw: usize,
    dim: usize,
)
    requires { MergeFits (length s.old) x y total merge gh gw dim }
    ensures { s.new ≡ put s.old y (merge_of merge gh gw dim (region s.old x (gh * gw * dim))) }
{
    for p in 0..total {
        let i = source(p, merge, gh, gw, dim);
        s[y + p] = s[x + i];
    }
}

// A linear layer by the matrix at place at of w and, where bias is 1, the bias right behind it.
pub(crate) fn linear_by(
    s: &mut [f32],
    x: usize,
    y: usize,
    n: usize,
    nin: usize,
    nout: usize,
    w: &[f32],
    at: usize,
    bias: usize,
    ok: bool,
) -> bool
    requires linear_at { LinearAt (length s.old) (length w.now) x y n nin nout at }
    requires nout_in_bounds { at + nout * nin + bias * nout ≤ length w.now }
    ensures { Wrote s.old s.new y
        (linear_by (bias_at (eqb bias 1) w.now (at + nout * nin) nout) n nin nout (region w.now at (nout * nin)) (region s.old x (n * nin))) ok result }
{
    if bias == 1 {
        return linear_bias_finite(s, x, y, n, nin, nout, w, at, at + nout * nin, ok);
    }
    linear_finite(s, x, y, n, nin, nout, w, at, ok)
}

// The projector, on h at 0; its result at at + o * text. w is the projector's part of the weights.
pub(crate) fn projector_forward(
    s: &mut [f32],
    w: &[f32],
    t: usize,
    dim: usize,
    o: usize,
    wide: usize,
    text: usize,
    bias: usize,
    merge: usize,
    gh: usize,
    gw: usize,
    at: usize,
) -> bool
    requires { ProjFits t dim o wide text bias (length s.old) (length w.now) merge gh gw at }
    ensures { answer result (region s.new (at + o * text) (o * text)) ≡ project_run t dim o wide text (eqb bias 1) merge gh gw w.now (region s.old 0 (t * dim)) }
{
    let n = t * dim;
    let p = dim + dim * wide;
    let q = p + text * dim + bias * text;
    let e = o * text;
    let a = norm_finite(s, 0, n, t, dim, part(w, 0, dim), true);
    merge_tokens(s, n, 2 * n, o * wide, merge, gh, gw, dim);
    let b = linear_finite(s, 2 * n, 3 * n, o, wide, dim, w, dim, a);
    let c = linear_by(s, 3 * n, at, o, dim, text, w, p, bias, b);
    let d = gelu_finite(s, at, e, c);
    linear_by(s, at, at + e, o, text, text, w, q, bias, d)
}
