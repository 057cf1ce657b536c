// The cut of a sweep.
ghost use Rattle.std.specs.Prelude.{◌≡◌};
ghost use Rattle.picture_tiles.specs.Answer.{cut_of};

use crate::Tiles;
use crate::place::{pieces_of, tile_side};
use picture_limits::settings::sides_allowed;
use picture_limits::{PictureSettings, Refusal};
use picture_samples::allowed::{channels_tested, settings_tested};
use picture_samples::samples;

// The side of a tile, and how many tiles stand below each other and side by side.
pub fn cut(s: PictureSettings, height: usize, width: usize) -> Result<Tiles, Refusal>
    ensures { result ≡ cut_of s height width }
{
    settings_tested(s)?;
    let t = samples(s.mean, s.deviation);
    channels_tested(&t)?;
    if !sides_allowed(height, width) {
        return Err(Refusal::Side);
    }
    if s.image_size < s.patch_size * s.spatial_merge_size {
        return Err(Refusal::ImageSize);
    }
    let side = tile_side(s);
    Ok(Tiles {
        side,
        rows: pieces_of(side, height),
        columns: pieces_of(side, width),
    })
}
