// The calls on the tiles of a sweep: settings turned, the call, and its answer as a report.
#![tactic(auto)]

ghost use Rattle.std.specs.Prelude.{◌≡◌, length};
ghost use Rattle.picture_tiles.specs.Answer.{cut_of, tiled, patches_out, untiled, bytes_out};
ghost use Rattle.face_settings.specs.Settings.{inner};
ghost use Rattle.face_tiles.specs.Reports.{cut_report, tile_report};

use face_settings::PictureSettings;
use picture_limits::Refusal;
use picture_tiles::{Tile, Tiles, preprocess, restore};

// The side of a tile, and how many tiles stand below each other and side by side.
#[repr(C)]
#[derive(Drop)]
pub struct CutReport {
    pub number: u32,
    pub side: usize,
    pub rows: usize,
    pub columns: usize,
}

// A tile's grid and floats, and where its own bytes lie in the sweep.
#[repr(C)]
#[derive(Drop)]
pub struct TileReport {
    pub number: u32,
    pub grid_h: usize,
    pub grid_w: usize,
    pub floats: usize,
    pub top: usize,
    pub left: usize,
    pub height: usize,
    pub width: usize,
}

impl From<Result<Tiles, Refusal>> for CutReport {
    ghost from_gives = { λ found r. r ≡ cut_report found };

    fn from(found: Result<Tiles, Refusal>) -> CutReport {
        match found {
            Ok(a) => CutReport {
                number: 0,
                side: a.side,
                rows: a.rows,
                columns: a.columns,
            },
            Err(r) => CutReport {
                number: u32::from(r),
                side: 0,
                rows: 0,
                columns: 0,
            },
        }
    }
}

impl From<Result<Tile, Refusal>> for TileReport {
    ghost from_gives = { λ found r. r ≡ tile_report found };

    fn from(found: Result<Tile, Refusal>) -> TileReport {
        match found {
            Ok(a) => TileReport {
                number: 0,
                grid_h: a.grid_h,
                grid_w: a.grid_w,
                floats: a.floats,
                top: a.top,
                left: a.left,
                height: a.height,
                width: a.width,
            },
            Err(r) => TileReport {
                number: u32::from(r),
                grid_h: 0,
                grid_w: 0,
                floats: 0,
                top: 0,
                left: 0,
                height: 0,
                width: 0,
            },
        }
    }
}

pub fn cut(s: PictureSettings, height: usize, width: usize) -> CutReport
    ensures { result ≡ cut_report (cut_of (inner s) height width) }
{
    let found = picture_tiles::cut::cut(s.into(), height, width);
    CutReport::from(found)
}

pub fn preprocess_tile(
    s: PictureSettings,
    rgb: &[u8],
    height: usize,
    width: usize,
    index: usize,
    out: &mut [f32],
) -> TileReport
    ensures answer { result ≡ tile_report (tiled (inner s) (length rgb.now) height width index (length out.old)) }
    ensures output { out.new ≡ patches_out (inner s) rgb.now height width index out.old }
{
    let found = preprocess::preprocess_tile(s.into(), rgb, height, width, index, out);
    TileReport::from(found)
}

pub fn restore_tile(
    s: PictureSettings,
    patches: &[f32],
    height: usize,
    width: usize,
    index: usize,
    out: &mut [u8],
) -> TileReport
    ensures answer { result ≡ tile_report (untiled (inner s) patches.now height width index (length out.old)) }
    ensures output { out.new ≡ bytes_out (inner s) patches.now height width index out.old }
{
    let found = restore::restore_tile(s.into(), patches, height, width, index, out);
    TileReport::from(found)
}
