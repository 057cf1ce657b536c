// Forward by tables of rows and of columns.
ghost use Rattle.std.specs.Prelude.{◌≡◌, length};
ghost use Rattle.encoder.specs.Axes.{encoded_axes, out_axes, scratch_axes};
ghost use Rattle.face_settings.specs.Settings.{inner_encoder};
ghost use Rattle.face_encoder.specs.Reports.{forward_report};

use crate::ForwardReport;
use face_settings::EncoderSettings;

pub fn forward_axes(
    s: EncoderSettings,
    patches: &[f32],
    grid_h: usize,
    grid_w: usize,
    weights: &[f32],
    row_cos: &[f32],
    row_sin: &[f32],
    column_cos: &[f32],
    column_sin: &[f32],
    scratch: &mut [f32],
    out: &mut [f32],
) -> ForwardReport
    ensures answer { result ≡ forward_report (encoded_axes (inner_encoder s) grid_h grid_w weights.now row_cos.now row_sin.now column_cos.now column_sin.now patches.now (length out.old) (length scratch.old)) }
    ensures output { out.new ≡ out_axes (inner_encoder s) grid_h grid_w weights.now row_cos.now row_sin.now column_cos.now column_sin.now patches.now (length scratch.old) out.old }
    ensures work { scratch.new ≡ scratch_axes (inner_encoder s) grid_h grid_w weights.now row_cos.now row_sin.now column_cos.now column_sin.now patches.now (length out.old) scratch.old }
{
    let found = encoder::forward::forward_axes(
        s.into(),
        patches,
        grid_h,
        grid_w,
        weights,
        row_cos,
        row_sin,
        column_cos,
        column_sin,
        scratch,
        out,
    );
    ForwardReport::from(found)
}
