// Patches back to the resized picture.
#![tactic(auto)]

ghost use Rattle.std.specs.Prelude.{◌≡◌, true, ◌*◌, length, Ok};
ghost use Rattle.picture_samples.specs.Samples.{sample_table, channels_allowed, value, entry};
ghost use Rattle.picture_limits.specs.Shape.{shaped};
ghost use Rattle.picture_restore.specs.Restore.{restored, bytes_out, Numbered};

use picture_limits::settings::shape;
use picture_limits::{PictureSettings, Refusal, View};
use picture_samples::allowed::{channels_tested, settings_tested};
use picture_samples::samples;
use picture_view::view::restore_view;

// The sides of a picture.
#[derive(Clone, Copy, Debug, PartialEq, Eq)]
pub struct Picture {
    pub height: usize,
    pub width: usize,
}

// What restore does where settings, channels, grid and length are in order: the view is the whole picture. t is the table of
// the settings.
fn restore_shaped(
    s: PictureSettings,
    patches: &[f32],
    grid_h: usize,
    grid_w: usize,
    out: &mut [u8],
    t: &[u32; 768],
) -> Result<Picture, Refusal>
    requires patches_value { shaped s grid_h grid_w (length patches.now) ≡ Ok (grid_h * grid_w) }
    requires t_value { (t.now ≡ sample_table s.mean s.deviation) × (channels_allowed (value (entry t.now)) ≡ true) }
    ensures answer { result ≡ restored s patches.now grid_h grid_w (length out.old) }
    ensures output { out.new ≡ bytes_out s patches.now grid_h grid_w out.old }
{
    let p = s.patch_size;
    let height = grid_h * p;
    let width = grid_w * p;
    if out.len() < height * width * 3 {
        return Err(Refusal::Output);
    }
    let v = View {
        top: 0,
        left: 0,
        height,
        width,
    };
    if !restore_view(s, patches, grid_h, grid_w, v, height, width, out, t) {
        return Err(Refusal::Sample);
    }
    Ok(Picture { height, width })
}

// The resized bytes that gave the patches, over the front of `out`. Every sample is tested before the first is written.
pub fn restore(
    s: PictureSettings,
    patches: &[f32],
    grid_h: usize,
    grid_w: usize,
    out: &mut [u8],
) -> Result<Picture, Refusal>
    ensures answer { result ≡ restored s patches.now grid_h grid_w (length out.old) }
    ensures output { out.new ≡ bytes_out s patches.now grid_h grid_w out.old }
    ensures numbers { Numbered s patches.now grid_h grid_w (length out.old) result }
{
    settings_tested(s)?;
    let t = samples(s.mean, s.deviation);
    channels_tested(&t)?;
    shape(s, grid_h, grid_w, patches.len())?;
    restore_shaped(s, patches, grid_h, grid_w, out, &t)
}
