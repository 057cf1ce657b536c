// One encoder block, as its two halves. Where a part of the layer's weights starts goes by the part's name, and where the
// part's results stand in the scratch by its plural; h stands at 0, and a half's norm at n.
ghost use Rattle.std.specs.Prelude.{◌≡◌, ◌+◌, ◌≤◌, length};
ghost use Rattle.buffers.specs.Region.{region};
ghost use Rattle.encoder_steps.specs.Run.{answer};
ghost use Rattle.encoder_steps.specs.inner.Step.{Wrote};
ghost use Rattle.encoder_blocks.specs.Block.{n_of, rotated, attn_run, feed_run, block_run};
ghost use Rattle.encoder_blocks.specs.Tables.{cos_by, sin_by};
ghost use Rattle.encoder_blocks.specs.inner.Live.{h_at};
ghost use Rattle.encoder_blocks.specs.inner.Fits.{AttendAt, BlockFits, RotationFits, ScoreRow, Attended};

use crate::Sizes;
use buffers::part;
use encoder_attention::attention::attend;
use encoder_kernels::finite::finite;
use encoder_plain::plain::attend_plain;
use encoder_settings::{Attention, Tables};
use encoder_steps::{
    add_finite, gate_finite, linear_finite, norm_finite, rotate_axes_finite, rotate_finite,
    round_finite,
};

// The rotation of the tokens at x, by full tables or by those of rows and of columns.
pub(crate) fn rotate_by(s: &mut [f32], x: usize, z: Sizes, tables: Tables, ok: bool) -> bool
    requires rotation_fits { RotationFits z (length s.old) tables }
    requires z_in_bounds { x + n_of z ≤ length s.old }
    ensures { Wrote s.old s.new x (rotated z (cos_by z tables.entry) (sin_by z tables.entry) (region s.old x (n_of z))) ok result }
{
    let t = z.tokens;
    let half = z.head_dim / 2;
    match tables {
        Tables::Full { cos, sin } => {
            rotate_finite(s, x, t, z.heads, half, z.grid_w, z.side, cos, sin, ok)
        }
        Tables::Axes {
            row_cos,
            row_sin,
            column_cos,
            column_sin,
        } => rotate_axes_finite(
            s, x, t, z.heads, half, z.grid_w, z.side, row_cos, row_sin, column_cos, column_sin, ok,
        ),
    }
}

// The attention of queries, keys and values at 2n, 3n and 4n, its sums at 5n: row-wise, with the keys turned where the norm
// stood, or plain, with the matrix of scores at row.
pub(crate) fn attend_by(s: &mut [f32], z: Sizes, row: usize, f: Attention) -> bool
    requires attend_at { AttendAt z (length s.old) }
    requires score_row { ScoreRow f z (length s.old) row }
    ensures { Attended z s.old s.new result }
{
    let t = z.tokens;
    let n = t * z.hidden;
    match f {
        Attention::RowWise => attend(
            s,
            2 * n,
            3 * n,
            4 * n,
            n,
            row,
            5 * n,
            t,
            z.heads,
            z.head_dim,
            z.scaling,
        ),
        Attention::Plain => attend_plain(
            s,
            2 * n,
            3 * n,
            4 * n,
            row,
            5 * n,
            t,
            z.heads,
            z.head_dim,
            z.scaling,
        ),
    }
}

// The first half: norm, q, k, v, rotation, attention, o, residual. The attention may write where the norm stood, which
// nothing reads any more.
pub(crate) fn attn(
    s: &mut [f32],
    z: Sizes,
    row: usize,
    w: &[f32],
    tables: Tables,
    f: Attention,
) -> bool
    requires block_fits { BlockFits z (length s.old) (length w.now) }
    requires rotation_fits { RotationFits z (length s.old) tables }
    requires score_row { ScoreRow f z (length s.old) row }
    ensures { answer result (h_at z s.new) ≡ attn_run z w.now (cos_by z tables.entry) (sin_by z tables.entry) (h_at z s.old) }
{
    let t = z.tokens;
    let dim = z.hidden;
    let n = t * dim;
    let q = dim;
    let k = q + dim * dim;
    let v = k + dim * dim;
    let o = v + dim * dim;
    let qs = 2 * n;
    let ks = 3 * n;
    let vs = 4 * n;
    let sums = 5 * n;
    let os = 6 * n;
    let ok = norm_finite(s, 0, n, t, dim, part(w, 0, dim), true);
    let ok = linear_finite(s, n, qs, t, dim, dim, w, q, ok);
    let ok = linear_finite(s, n, ks, t, dim, dim, w, k, ok);
    let ok = linear_finite(s, n, vs, t, dim, dim, w, v, ok);
    let ok = rotate_by(s, qs, z, tables, ok);
    let ok = rotate_by(s, ks, z, tables, ok);
    let scored = attend_by(s, z, row, f);
    let summed = finite(part(s, sums, n));
    let ok = linear_finite(s, sums, os, t, dim, dim, w, o, (ok & scored) & summed);
    add_finite(s, 0, os, n, ok)
}

// The second half: norm, gate, up, silu * up, down, residual, bf16.
pub(crate) fn feed(s: &mut [f32], z: Sizes, w: &[f32]) -> bool
    requires { BlockFits z (length s.old) (length w.now) }
    ensures { answer result (h_at z s.new) ≡ feed_run z w.now (h_at z s.old) }
{
    let t = z.tokens;
    let inter = z.inter;
    let dim = z.hidden;
    let n = t * dim;
    let m = t * inter;
    let norm = dim + 4 * (dim * dim);
    let gate = norm + dim;
    let up = gate + inter * dim;
    let down = up + inter * dim;
    let gates = 7 * n;
    let ups = gates + m;
    let downs = 6 * n;
    let ok = norm_finite(s, 0, n, t, dim, part(w, norm, dim), true);
    let ok = linear_finite(s, n, gates, t, dim, inter, w, gate, ok);
    let ok = linear_finite(s, n, ups, t, dim, inter, w, up, ok);
    let ok = gate_finite(s, gates, ups, m, ok);
    let ok = linear_finite(s, gates, downs, t, inter, dim, w, down, ok);
    let ok = add_finite(s, 0, downs, n, ok);
    round_finite(s, 0, n, ok)
}

// The block: h, the first n floats of the scratch, becomes the block's result where every stage is finite.
pub(crate) fn pixtral_block_forward(
    s: &mut [f32],
    z: Sizes,
    row: usize,
    w: &[f32],
    tables: Tables,
    f: Attention,
) -> bool
    requires block_fits { BlockFits z (length s.old) (length w.now) }
    requires rotation_fits { RotationFits z (length s.old) tables }
    requires score_row { ScoreRow f z (length s.old) row }
    ensures { answer result (h_at z s.new) ≡ block_run z w.now (cos_by z tables.entry) (sin_by z tables.entry) (h_at z s.old) }
{
    let a = attn(s, z, row, w, tables, f);
    let b = feed(s, z, w);
    a & b
}
