// A tile of a sweep to patches.
ghost use Rattle.std.specs.Prelude.{◌≡◌, true, length};
ghost use Rattle.picture_limits.specs.Settings.{allowed};
ghost use Rattle.picture_samples.specs.Samples.{channels_allowed, value, entry, sample_table};
ghost use Rattle.picture_tiles.specs.Answer.{tiled, patches_out};

use crate::Tile;
use crate::place::{grid_side, in_cut, tile_view};
use picture_limits::settings::sides_allowed;
use picture_limits::{PictureSettings, Refusal};
use picture_patches::frame::view_patches;
use picture_samples::allowed::{channels_tested, settings_tested};
use picture_samples::samples;

// What a tile's preprocess does where settings and channels are allowed; t is the table of the settings.
fn preprocess_tile_by(
    s: PictureSettings,
    rgb: &[u8],
    height: usize,
    width: usize,
    index: usize,
    out: &mut [f32],
    t: &[u32; 768],
) -> Result<Tile, Refusal>
    requires { (allowed s ≡ true) × (channels_allowed (value (entry t.now)) ≡ true) × (t.now ≡ sample_table s.mean s.deviation) }
    ensures answer { result ≡ tiled s (length rgb.now) height width index (length out.old) }
    ensures output { out.new ≡ patches_out s rgb.now height width index out.old }
{
    if !sides_allowed(height, width) {
        return Err(Refusal::Side);
    }
    if rgb.len() != height * width * 3 {
        return Err(Refusal::RgbLength);
    }
    let p = s.patch_size;
    if s.image_size < p * s.spatial_merge_size {
        return Err(Refusal::ImageSize);
    }
    if !in_cut(s, height, width, index) {
        return Err(Refusal::Tile);
    }
    let v = tile_view(s, height, width, index);
    let gh = grid_side(s, v.height);
    let gw = grid_side(s, v.width);
    let floats = gh * gw * (3 * (p * p));
    if out.len() < floats {
        return Err(Refusal::Output);
    }
    view_patches(rgb, height, width, v, gh * p, gw * p, p, out, t);
    Ok(Tile {
        grid_h: gh,
        grid_w: gw,
        floats,
        top: v.top,
        left: v.left,
        height: v.height,
        width: v.width,
    })
}

// The patches of tile `index` of a sweep, over the front of `out`.
pub fn preprocess_tile(
    s: PictureSettings,
    rgb: &[u8],
    height: usize,
    width: usize,
    index: usize,
    out: &mut [f32],
) -> Result<Tile, Refusal>
    ensures answer { result ≡ tiled s (length rgb.now) height width index (length out.old) }
    ensures output { out.new ≡ patches_out s rgb.now height width index out.old }
{
    settings_tested(s)?;
    let t = samples(s.mean, s.deviation);
    channels_tested(&t)?;
    preprocess_tile_by(s, rgb, height, width, index, out, &t)
}
