// A picture to patches: what is refused, and the sides of the picture resized.
ghost use Rattle.std.specs.Prelude.{◌≡◌, true, ◌≤◌, ◌<◌, length};
ghost use Rattle.picture_limits.specs.Settings.{allowed};
ghost use Rattle.picture_samples.specs.Samples.{channels_allowed, value, entry, sample_table};
ghost use Rattle.picture_limits.specs.Sides.{kept, side, resized};
ghost use Rattle.picture.specs.Preprocess.{preprocessed, patches_out, Numbered};

use crate::Patches;
use picture_limits::settings::sides_allowed;
use picture_limits::{PictureSettings, Refusal};
use picture_patches::frame::resized_patches;
use picture_samples::allowed::{channels_tested, settings_tested};
use picture_samples::samples;

// A side x rounded up to a multiple of a, cut to n, rounded down to a multiple of a.
fn side_of(a: usize, n: usize, x: usize) -> usize
    requires { (0 < a) × (a ≤ 128) × (x ≤ 8192) }
    ensures { result ≡ side a n x }
{
    let up = (x + (a - 1)) / a * a;
    if up <= n {
        return up / a * a;
    }
    n / a * a
}

// A side x of a picture whose longer side is m, before the rounding to an image of size n.
fn kept_side(rule: usize, n: usize, m: usize, x: usize) -> usize
    requires { (0 < m) × (n ≤ 2048) × (x ≤ 8192) }
    ensures { result ≡ kept rule n m x }
{
    if (rule == 2) & (n < m) {
        return (x * n / m).max(1);
    }
    x
}

fn resized_side(s: PictureSettings, m: usize, x: usize) -> usize
    requires { (allowed s ≡ true) × (x ≤ m) × (0 < x) × (m ≤ 8192) }
    ensures { result ≡ resized s m x }
{
    let n = s.image_size;
    let y = kept_side(s.resize_rule, n, m, x);
    side_of(s.patch_size * s.spatial_merge_size, n, y)
}

// What preprocess does where settings and channels are allowed; t is the table of the settings.
fn preprocess_by(
    s: PictureSettings,
    rgb: &[u8],
    height: usize,
    width: usize,
    out: &mut [f32],
    t: &[u32; 768],
) -> Result<Patches, Refusal>
    requires { (allowed s ≡ true) × (channels_allowed (value (entry t.now)) ≡ true) × (t.now ≡ sample_table s.mean s.deviation) }
    ensures answer { result ≡ preprocessed s (length rgb.now) height width (length out.old) }
    ensures output { out.new ≡ patches_out s rgb.now height width out.old }
{
    if !sides_allowed(height, width) {
        return Err(Refusal::Side);
    }
    if rgb.len() != height * width * 3 {
        return Err(Refusal::RgbLength);
    }
    let p = s.patch_size;
    let a = p * s.spatial_merge_size;
    let n = s.image_size;
    if n < a {
        return Err(Refusal::ImageSize);
    }
    let m = height.max(width);
    let th = resized_side(s, m, height);
    let tw = resized_side(s, m, width);
    let gh = th / p;
    let gw = tw / p;
    let floats = gh * gw * (3 * (p * p));
    if out.len() < floats {
        return Err(Refusal::Output);
    }
    resized_patches(rgb, height, width, th, tw, p, out, t);
    Ok(Patches {
        grid_h: gh,
        grid_w: gw,
        floats,
    })
}

// The patches of a picture, over the front of `out`.
pub fn pixtral_preprocess(
    s: PictureSettings,
    rgb: &[u8],
    height: usize,
    width: usize,
    out: &mut [f32],
) -> Result<Patches, Refusal>
    ensures answer { result ≡ preprocessed s (length rgb.now) height width (length out.old) }
    ensures output { out.new ≡ patches_out s rgb.now height width out.old }
    ensures numbers { Numbered s (length rgb.now) height width (length out.old) result }
{
    settings_tested(s)?;
    let t = samples(s.mean, s.deviation);
    channels_tested(&t)?;
    preprocess_by(s, rgb, height, width, out, &t)
}
