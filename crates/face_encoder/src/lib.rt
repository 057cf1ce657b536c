// The calls on patches: settings turned, the call, and its answer as a report.
#![tactic(auto)]

pub mod axes;
pub mod plain;

ghost use Rattle.std.specs.Prelude.{◌≡◌, length};
ghost use Rattle.encoder_settings.specs.Lengths.{needed_of};
ghost use Rattle.encoder.specs.Forward.{encoded_of, out_of, scratch_of};
ghost use Rattle.face_settings.specs.Settings.{inner_encoder};
ghost use Rattle.face_encoder.specs.Reports.{forward_report, lengths_report};

use encoder_settings::lengths::Lengths;
use face_settings::EncoderSettings;
use picture_limits::Refusal;

#[repr(C)]
#[derive(Drop)]
pub struct ForwardReport {
    pub number: u32,
    pub tokens: usize,
}

// How many floats each buffer of a forward call has to have; each full rotary table has `tables`, and each of rows or of columns
// `axes`.
#[repr(C)]
#[derive(Drop)]
pub struct LengthsReport {
    pub number: u32,
    pub patches: usize,
    pub weights: usize,
    pub tables: usize,
    pub axes: usize,
    pub scratch: usize,
    pub out: usize,
}

impl From<Result<usize, Refusal>> for ForwardReport {
    ghost from_gives = { λ found r. r ≡ forward_report found };

    fn from(found: Result<usize, Refusal>) -> ForwardReport {
        match found {
            Ok(count) => ForwardReport {
                number: 0,
                tokens: count,
            },
            Err(r) => ForwardReport {
                number: u32::from(r),
                tokens: 0,
            },
        }
    }
}

impl From<Result<Lengths, Refusal>> for LengthsReport {
    ghost from_gives = { λ found r. r ≡ lengths_report found };

    fn from(found: Result<Lengths, Refusal>) -> LengthsReport {
        match found {
            Ok(l) => LengthsReport {
                number: 0,
                patches: l.patches,
                weights: l.weights,
                tables: l.tables,
                axes: l.axes,
                scratch: l.scratch,
                out: l.out,
            },
            Err(r) => LengthsReport {
                number: u32::from(r),
                patches: 0,
                weights: 0,
                tables: 0,
                axes: 0,
                scratch: 0,
                out: 0,
            },
        }
    }
}

pub fn forward(
    s: EncoderSettings,
    patches: &[f32],
    grid_h: usize,
    grid_w: usize,
    weights: &[f32],
    rope_cos: &[f32],
    rope_sin: &[f32],
    scratch: &mut [f32],
    out: &mut [f32],
) -> ForwardReport
    ensures answer { result ≡ forward_report (encoded_of (inner_encoder s) grid_h grid_w weights.now rope_cos.now rope_sin.now patches.now (length out.old) (length scratch.old)) }
    ensures output { out.new ≡ out_of (inner_encoder s) grid_h grid_w weights.now rope_cos.now rope_sin.now patches.now (length scratch.old) out.old }
    ensures work { scratch.new ≡ scratch_of (inner_encoder s) grid_h grid_w weights.now rope_cos.now rope_sin.now patches.now (length out.old) scratch.old }
{
    let found = encoder::forward::forward(
        s.into(),
        patches,
        grid_h,
        grid_w,
        weights,
        rope_cos,
        rope_sin,
        scratch,
        out,
    );
    ForwardReport::from(found)
}

pub fn lengths(s: EncoderSettings, grid_h: usize, grid_w: usize) -> LengthsReport
    ensures { result ≡ lengths_report (needed_of (inner_encoder s) grid_h grid_w) }
{
    let found = encoder_settings::lengths::needed(s.into(), grid_h, grid_w);
    LengthsReport::from(found)
}
