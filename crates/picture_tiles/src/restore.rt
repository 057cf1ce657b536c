// The patches of a tile back to its own bytes in the sweep.
ghost use Rattle.std.specs.Prelude.{◌≡◌, true, length};
ghost use Rattle.picture_limits.specs.Settings.{allowed};
ghost use Rattle.picture_samples.specs.Samples.{channels_allowed, value, entry, sample_table};
ghost use Rattle.picture_tiles.specs.Answer.{untiled, bytes_out};

use crate::Tile;
use crate::padding::zero_rows;
use crate::place::{grid_side, in_cut, tile_view};
use picture_limits::settings::sides_allowed;
use picture_limits::{PictureSettings, Refusal};
use picture_samples::allowed::{channels_tested, settings_tested};
use picture_samples::samples;
use picture_view::view::restore_view;

// What a tile's restore does where settings and channels are allowed; t is the table of the settings.
fn restore_tile_by(
    s: PictureSettings,
    patches: &[f32],
    height: usize,
    width: usize,
    index: usize,
    out: &mut [u8],
    t: &[u32; 768],
) -> Result<Tile, Refusal>
    requires { (allowed s ≡ true) × (channels_allowed (value (entry t.now)) ≡ true) × (t.now ≡ sample_table s.mean s.deviation) }
    ensures answer { result ≡ untiled s patches.now height width index (length out.old) }
    ensures output { out.new ≡ bytes_out s patches.now height width index out.old }
{
    if !sides_allowed(height, width) {
        return Err(Refusal::Side);
    }
    let p = s.patch_size;
    if s.image_size < p * s.spatial_merge_size {
        return Err(Refusal::ImageSize);
    }
    if !in_cut(s, height, width, index) {
        return Err(Refusal::Tile);
    }
    let v = tile_view(s, height, width, index);
    let gh = grid_side(s, v.height);
    let gw = grid_side(s, v.width);
    let floats = gh * gw * (3 * (p * p));
    if patches.len() != floats {
        return Err(Refusal::PatchesLength);
    }
    if out.len() < height * width * 3 {
        return Err(Refusal::Output);
    }
    if !zero_rows(patches, p, gh, gw, v, t) {
        return Err(Refusal::Sample);
    }
    if !restore_view(s, patches, gh, gw, v, height, width, out, t) {
        return Err(Refusal::Sample);
    }
    Ok(Tile {
        grid_h: gh,
        grid_w: gw,
        floats,
        top: v.top,
        left: v.left,
        height: v.height,
        width: v.width,
    })
}

// The own bytes of tile `index`, at their places in `out`, the bytes of the sweep. Every sample is tested before the first
// byte is written.
pub fn restore_tile(
    s: PictureSettings,
    patches: &[f32],
    height: usize,
    width: usize,
    index: usize,
    out: &mut [u8],
) -> Result<Tile, Refusal>
    ensures answer { result ≡ untiled s patches.now height width index (length out.old) }
    ensures output { out.new ≡ bytes_out s patches.now height width index out.old }
{
    settings_tested(s)?;
    let t = samples(s.mean, s.deviation);
    channels_tested(&t)?;
    restore_tile_by(s, patches, height, width, index, out, &t)
}
