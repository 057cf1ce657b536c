// Where a tile lies in the sweep, and how many patches it has.
ghost use Rattle.std.specs.Prelude.{◌≡◌, true, ◌/◌, ◌≤◌, ◌<◌};
ghost use Rattle.picture_limits.specs.Settings.{sided, align};
ghost use Rattle.picture_tiles.specs.Cut.{Ready, pieces, up, tile_side, in_cut, tiles};
ghost use Rattle.picture_tiles.specs.Tile.{tile_view};

use picture_limits::{PictureSettings, View};

// s, the side of a tile.
pub(crate) fn tile_side(s: PictureSettings) -> usize
    requires { Ready s }
    ensures { result ≡ tile_side s }
{
    let a = s.patch_size * s.spatial_merge_size;
    s.image_size / a * a
}

// How many pieces t long cover n.
pub(crate) fn pieces_of(t: usize, n: usize) -> usize
    requires { (1 ≤ t) × (t ≤ 2048) × (n ≤ 8192) }
    ensures { result ≡ pieces t n }
{
    (n + (t - 1)) / t
}

pub(crate) fn in_cut(s: PictureSettings, height: usize, width: usize, index: usize) -> bool
    requires { Ready s × (sided height width ≡ true) }
    ensures { result ≡ in_cut s height width index }
{
    let t = tile_side(s);
    index < pieces_of(t, height) * pieces_of(t, width)
}

// What a tile has of the sweep.
pub(crate) fn tile_view(s: PictureSettings, height: usize, width: usize, index: usize) -> View
    requires { Ready s × (sided height width ≡ true) × (index < tiles s height width) }
    ensures { result ≡ tile_view s height width index }
{
    let t = tile_side(s);
    let across = pieces_of(t, width);
    let top = index / across * t;
    let left = index % across * t;
    View {
        top,
        left,
        height: t.min(height - top),
        width: t.min(width - left),
    }
}

// How many patches cover n rows or columns, once these are padded to a multiple of patch × merge.
pub(crate) fn grid_side(s: PictureSettings, n: usize) -> usize
    requires { Ready s × (n ≤ 2048) }
    ensures { result ≡ up (align s) n / s.patch_size }
{
    let p = s.patch_size;
    let a = p * s.spatial_merge_size;
    (n + (a - 1)) / a * a / p
}
