// The C face: each call under its name in C. Those on pictures, tiles and patches are handed on to `face_picture`, `face_tiles`
// and `face_encoder`, which turn settings and answers; those on pools, on config.json and on safetensors files are turned here.
#![tactic(auto)]

pub mod axes;
pub mod config_file;
pub mod plain;
pub mod pools;
pub mod salvage;
pub mod tiles;
pub mod version;
pub mod weights_file;

ghost use Rattle.std.specs.Prelude.{◌≡◌, length};
ghost use Rattle.picture.specs.Preprocess.{preprocessed, patches_out};
ghost use Rattle.picture_restore.specs.Restore.{restored, bytes_out};
ghost use Rattle.encoder_settings.specs.Lengths.{needed_of};
ghost use Rattle.encoder.specs.Forward.{encoded_of, out_of, scratch_of};
ghost use Rattle.face_settings.specs.Settings.{inner, inner_encoder};
ghost use Rattle.face_picture.specs.Reports.{preprocess_report, restore_report, place_of};
ghost use Rattle.face_encoder.specs.Reports.{forward_report, lengths_report};

use face_encoder::{ForwardReport, LengthsReport};
use face_picture::{PatchPlace, PreprocessReport, RestoreReport};
use face_settings::{EncoderSettings, PictureSettings};

#[unsafe(no_mangle)]
pub extern "C" fn kz_preprocess(
    s: PictureSettings,
    rgb: &[u8],
    height: usize,
    width: usize,
    out: &mut [f32],
) -> PreprocessReport
    ensures answer { result ≡ preprocess_report (preprocessed (inner s) (length rgb.now) height width (length out.old)) }
    ensures output { out.new ≡ patches_out (inner s) rgb.now height width out.old }
{
    face_picture::preprocess(s, rgb, height, width, out)
}

#[unsafe(no_mangle)]
pub extern "C" fn kz_restore(
    s: PictureSettings,
    patches: &[f32],
    grid_h: usize,
    grid_w: usize,
    out: &mut [u8],
) -> RestoreReport
    ensures answer { result ≡ restore_report (restored (inner s) patches.now grid_h grid_w (length out.old)) }
    ensures output { out.new ≡ bytes_out (inner s) patches.now grid_h grid_w out.old }
{
    face_picture::restore(s, patches, grid_h, grid_w, out)
}

#[unsafe(no_mangle)]
pub extern "C" fn kz_patch(patches: &[f32], patch_size: usize, i: usize) -> PatchPlace
    ensures { result ≡ place_of (length patches.now) patch_size i }
{
    face_picture::patch(patches, patch_size, i)
}

#[unsafe(no_mangle)]
pub extern "C" fn kz_forward(
    s: EncoderSettings,
    patches: &[f32],
    grid_h: usize,
    grid_w: usize,
    weights: &[f32],
    rope_cos: &[f32],
    rope_sin: &[f32],
    scratch: &mut [f32],
    out: &mut [f32],
) -> ForwardReport
    ensures answer { result ≡ forward_report (encoded_of (inner_encoder s) grid_h grid_w weights.now rope_cos.now rope_sin.now patches.now (length out.old) (length scratch.old)) }
    ensures output { out.new ≡ out_of (inner_encoder s) grid_h grid_w weights.now rope_cos.now rope_sin.now patches.now (length scratch.old) out.old }
    ensures work { scratch.new ≡ scratch_of (inner_encoder s) grid_h grid_w weights.now rope_cos.now rope_sin.now patches.now (length out.old) scratch.old }
{
    face_encoder::forward(
        s, patches, grid_h, grid_w, weights, rope_cos, rope_sin, scratch, out,
    )
}

#[unsafe(no_mangle)]
pub extern "C" fn kz_lengths(s: EncoderSettings, grid_h: usize, grid_w: usize) -> LengthsReport
    ensures { result ≡ lengths_report (needed_of (inner_encoder s) grid_h grid_w) }
{
    face_encoder::lengths(s, grid_h, grid_w)
}
