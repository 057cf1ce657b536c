// From patches to token vectors.
ghost use Rattle.std.specs.Prelude.{◌≡◌, ◌*◌, ◌/◌, length};
ghost use Rattle.encoder_settings.specs.Settings.{merge_area};
ghost use Rattle.encoder.specs.Forward.{encoded_of, out_of, scratch_of, forward_number, Numbered};
ghost use Rattle.encoder.specs.Axes.{encoded_axes, out_axes, scratch_axes, axes_number};
ghost use Rattle.encoder.specs.Plain.{encoded_plain, out_plain, scratch_plain, plain_number};

use encoder_run::form::forward_by;
use encoder_settings::{Attention, EncoderSettings, Tables};
use picture_limits::Refusal;

// The token vectors of patches: the count of them, or a refusal.
pub fn forward(
    s: EncoderSettings,
    patches: &[f32],
    grid_h: usize,
    grid_w: usize,
    weights: &[f32],
    rope_cos: &[f32],
    rope_sin: &[f32],
    scratch: &mut [f32],
    out: &mut [f32],
) -> Result<usize, Refusal>
    ensures answer { result ≡ encoded_of s grid_h grid_w weights.now rope_cos.now rope_sin.now patches.now (length out.old) (length scratch.old) }
    ensures output { out.new ≡ out_of s grid_h grid_w weights.now rope_cos.now rope_sin.now patches.now (length scratch.old) out.old }
    ensures work { scratch.new ≡ scratch_of s grid_h grid_w weights.now rope_cos.now rope_sin.now patches.now (length out.old) scratch.old }
    ensures numbers { Numbered (forward_number s grid_h grid_w weights.now rope_cos.now rope_sin.now patches.now (length out.old) (length scratch.old)) (grid_h * grid_w / merge_area s.picture) result }
{
    let tables = Tables::Full {
        cos: rope_cos,
        sin: rope_sin,
    };
    let attention = Attention::RowWise;
    forward_by(
        s, patches, grid_h, grid_w, weights, tables, scratch, out, attention,
    )
}

// The same by tables of rows and of columns, cosines and sines of each.
pub fn forward_axes(
    s: EncoderSettings,
    patches: &[f32],
    grid_h: usize,
    grid_w: usize,
    weights: &[f32],
    row_cos: &[f32],
    row_sin: &[f32],
    column_cos: &[f32],
    column_sin: &[f32],
    scratch: &mut [f32],
    out: &mut [f32],
) -> Result<usize, Refusal>
    ensures answer { result ≡ encoded_axes s grid_h grid_w weights.now row_cos.now row_sin.now column_cos.now column_sin.now patches.now (length out.old) (length scratch.old) }
    ensures output { out.new ≡ out_axes s grid_h grid_w weights.now row_cos.now row_sin.now column_cos.now column_sin.now patches.now (length scratch.old) out.old }
    ensures work { scratch.new ≡ scratch_axes s grid_h grid_w weights.now row_cos.now row_sin.now column_cos.now column_sin.now patches.now (length out.old) scratch.old }
    ensures numbers { Numbered (axes_number s grid_h grid_w weights.now row_cos.now row_sin.now column_cos.now column_sin.now patches.now (length out.old) (length scratch.old)) (grid_h * grid_w / merge_area s.picture) result }
{
    let axes = Tables::Axes {
        row_cos,
        row_sin,
        column_cos,
        column_sin,
    };
    let attention = Attention::RowWise;
    forward_by(
        s, patches, grid_h, grid_w, weights, axes, scratch, out, attention,
    )
}

// The same with plain attention, in the source's form: up to 64 tokens.
pub fn forward_plain(
    s: EncoderSettings,
    patches: &[f32],
    grid_h: usize,
    grid_w: usize,
    weights: &[f32],
    rope_cos: &[f32],
    rope_sin: &[f32],
    scratch: &mut [f32],
    out: &mut [f32],
) -> Result<usize, Refusal>
    ensures answer { result ≡ encoded_plain s grid_h grid_w weights.now rope_cos.now rope_sin.now patches.now (length out.old) (length scratch.old) }
    ensures output { out.new ≡ out_plain s grid_h grid_w weights.now rope_cos.now rope_sin.now patches.now (length scratch.old) out.old }
    ensures work { scratch.new ≡ scratch_plain s grid_h grid_w weights.now rope_cos.now rope_sin.now patches.now (length out.old) scratch.old }
    ensures numbers { Numbered (plain_number s grid_h grid_w weights.now rope_cos.now rope_sin.now patches.now (length out.old) (length scratch.old)) (grid_h * grid_w / merge_area s.picture) result }
{
    let tables = Tables::Full {
        cos: rope_cos,
        sin: rope_sin,
    };
    let attention = Attention::Plain;
    forward_by(
        s, patches, grid_h, grid_w, weights, tables, scratch, out, attention,
    )
}
