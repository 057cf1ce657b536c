// The embedding: inputs examined, patch projection, ln_pre.
ghost use Rattle.std.specs.Prelude.{◌≡◌, true, [], ◌∷◌, length};
ghost use Rattle.encoder_steps.specs.Run.{stages_finite, answer};
ghost use Rattle.encoder_blocks.specs.Tables.{cos_by, sin_by};
ghost use Rattle.encoder_blocks.specs.inner.Live.{h_at};
ghost use Rattle.encoder_blocks.specs.inner.Room.{tables_fit};
ghost use Rattle.encoder_run.specs.Stages.{embed_run};
ghost use Rattle.encoder_run.specs.inner.Fits.{EmbedFits};

use buffers::part;
use encoder_blocks::Sizes;
use encoder_kernels::finite::finite;
use encoder_settings::Tables;
use encoder_steps::{linear_from_finite, norm_finite, round_finite};

// Whether patches, weights and tables are finite: full ones, or those of rows and of columns, all of them.
pub(crate) fn inputs_finite(x: &[f32], w: &[f32], tables: Tables, z: Sizes) -> bool
    requires { tables_fit z tables ≡ true }
    ensures { result ≡ stages_finite true (x.now ∷ w.now ∷ cos_by z tables.entry ∷ sin_by z tables.entry ∷ []) }
{
    let a = finite(x);
    let b = finite(w);
    match tables {
        Tables::Full { cos, sin } => {
            let c = finite(cos);
            let d = finite(sin);
            ((a & b) & c) & d
        }
        Tables::Axes {
            row_cos,
            row_sin,
            column_cos,
            column_sin,
        } => {
            let c = finite(row_cos);
            let d = finite(row_sin);
            let g = finite(column_cos);
            let h = finite(column_sin);
            ((a & b) & (c & g)) & (d & h)
        }
    }
}

// Patch projection and ln_pre, each rounded to bf16: h, where every stage is finite. w is the embedding's part of the weights.
pub(crate) fn embed(x: &[f32], s: &mut [f32], z: Sizes, f: usize, w: &[f32]) -> bool
    requires { EmbedFits z (length x.now) (length s.old) (length w.now) f }
    ensures { answer result (h_at z s.new) ≡ embed_run z f w.now x.now }
{
    let t = z.tokens;
    let dim = z.hidden;
    let n = t * dim;
    let e = dim * f;
    let a = linear_from_finite(x, s, n, t, f, dim, part(w, 0, e), true);
    let b = round_finite(s, n, n, a);
    let c = norm_finite(s, n, 0, t, dim, part(w, e, dim), b);
    round_finite(s, 0, n, c)
}
