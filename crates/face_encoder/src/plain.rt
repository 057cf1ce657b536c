// Forward with plain attention.
ghost use Rattle.std.specs.Prelude.{◌≡◌, length};
ghost use Rattle.encoder.specs.Plain.{encoded_plain, out_plain, scratch_plain};
ghost use Rattle.face_settings.specs.Settings.{inner_encoder};
ghost use Rattle.face_encoder.specs.Reports.{forward_report};

use crate::ForwardReport;
use face_settings::EncoderSettings;

pub fn forward_plain(
    s: EncoderSettings,
    patches: &[f32],
    grid_h: usize,
    grid_w: usize,
    weights: &[f32],
    rope_cos: &[f32],
    rope_sin: &[f32],
    scratch: &mut [f32],
    out: &mut [f32],
) -> ForwardReport
    ensures answer { result ≡ forward_report (encoded_plain (inner_encoder s) grid_h grid_w weights.now rope_cos.now rope_sin.now patches.now (length out.old) (length scratch.old)) }
    ensures output { out.new ≡ out_plain (inner_encoder s) grid_h grid_w weights.now rope_cos.now rope_sin.now patches.now (length scratch.old) out.old }
    ensures work { scratch.new ≡ scratch_plain (inner_encoder s) grid_h grid_w weights.now rope_cos.now rope_sin.now patches.now (length out.old) scratch.old }
{
    let found = encoder::forward::forward_plain(
        s.into(),
        patches,
        grid_h,
        grid_w,
        weights,
        rope_cos,
        rope_sin,
        scratch,
        out,
    );
    ForwardReport::from(found)
}
