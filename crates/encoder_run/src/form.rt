// The call by its tables and its attention, whichever they are.
ghost use Rattle.std.specs.Prelude.{◌≡◌, length};
ghost use Rattle.encoder_run.specs.Answer.{encoded_by, out_by, scratch_by};
ghost use Rattle.encoder_run.specs.inner.Forms.{lengths_by, run_by};

use crate::run::run;
use encoder_settings::settings::checked;
use encoder_settings::{Attention, EncoderSettings, Tables};
use picture_limits::Refusal;

// The count of the token vectors, or a refusal.
pub fn forward_by(
    s: EncoderSettings,
    patches: &[f32],
    grid_h: usize,
    grid_w: usize,
    weights: &[f32],
    tables: Tables,
    scratch: &mut [f32],
    out: &mut [f32],
    f: Attention,
) -> Result<usize, Refusal>
    ensures answer { result ≡ encoded_by (lengths_by f s grid_h grid_w weights.now tables.entry patches.now (length out.old) (length scratch.old)) (run_by s grid_h grid_w weights.now tables.entry patches.now) }
    ensures output { out.new ≡ out_by (lengths_by f s grid_h grid_w weights.now tables.entry patches.now (length out.old) (length scratch.old)) (run_by s grid_h grid_w weights.now tables.entry patches.now) out.old }
    ensures work { scratch.new ≡ scratch_by (lengths_by f s grid_h grid_w weights.now tables.entry patches.now (length out.old) (length scratch.old)) scratch.old }
{
    let a = checked(
        s,
        grid_h,
        grid_w,
        patches.len(),
        weights.len(),
        tables.lengths(),
        out.len(),
        scratch.len(),
        f,
    )?;
    run(
        s, patches, grid_h, grid_w, a.tokens, a.count, weights, tables, scratch, out, f,
    )
}
