// The calls on the tiles of a sweep.
ghost use Rattle.std.specs.Prelude.{◌≡◌, length};
ghost use Rattle.picture_tiles.specs.Answer.{cut_of, tiled, patches_out, untiled, bytes_out};
ghost use Rattle.face_settings.specs.Settings.{inner};
ghost use Rattle.face_tiles.specs.Reports.{cut_report, tile_report};

use face_settings::PictureSettings;
use face_tiles::{CutReport, TileReport};

#[unsafe(no_mangle)]
pub extern "C" fn kz_cut(s: PictureSettings, height: usize, width: usize) -> CutReport
    ensures { result ≡ cut_report (cut_of (inner s) height width) }
{
    face_tiles::cut(s, height, width)
}

#[unsafe(no_mangle)]
pub extern "C" fn kz_preprocess_tile(
    s: PictureSettings,
    rgb: &[u8],
    height: usize,
    width: usize,
    index: usize,
    out: &mut [f32],
) -> TileReport
    ensures answer { result ≡ tile_report (tiled (inner s) (length rgb.now) height width index (length out.old)) }
    ensures output { out.new ≡ patches_out (inner s) rgb.now height width index out.old }
{
    face_tiles::preprocess_tile(s, rgb, height, width, index, out)
}

#[unsafe(no_mangle)]
pub extern "C" fn kz_restore_tile(
    s: PictureSettings,
    patches: &[f32],
    height: usize,
    width: usize,
    index: usize,
    out: &mut [u8],
) -> TileReport
    ensures answer { result ≡ tile_report (untiled (inner s) patches.now height width index (length out.old)) }
    ensures output { out.new ≡ bytes_out (inner s) patches.now height width index out.old }
{
    face_tiles::restore_tile(s, patches, height, width, index, out)
}
