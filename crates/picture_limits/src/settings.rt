// Allowed settings, sides and grids.
ghost use Rattle.std.specs.Prelude.{◌≡◌, ◌&&◌, ◌+◌, leb};
ghost use Rattle.picture_limits.specs.Settings.{allowed, sided};
ghost use Rattle.picture_limits.specs.inner.Divides.{Divides};
ghost use Rattle.picture_limits.specs.Shape.{grid_allowed, shaped};
ghost use Rattle.picture_limits.specs.View.{inside};

use crate::{PictureSettings, Refusal, View};

pub fn settings_allowed(s: PictureSettings) -> bool
    ensures { result ≡ allowed s }
{
    let p = s.patch_size;
    let m = s.spatial_merge_size;
    let n = s.image_size;
    let r = s.resize_rule;
    (1 <= p) & (p <= 32) & ((1 <= m) & (m <= 4)) & ((1 <= n) & (n <= 2048)) & ((1 <= r) & (r <= 2))
}

// Height and width.
pub fn sides_allowed(h: usize, w: usize) -> bool
    ensures { result ≡ sided h w }
{
    (1 <= h) & (h <= 8192) & ((1 <= w) & (w <= 8192))
}

// Whether n have room for `len` from `at` on.
fn span_inside(at: usize, len: usize, n: usize) -> bool
    ensures { result ≡ leb (at + len) n }
{
    if n < len {
        return false;
    }
    at <= n - len
}

// Whether a view lies inside a picture of h rows and w columns.
pub fn view_inside(v: View, h: usize, w: usize) -> bool
    ensures { result ≡ inside v h w }
{
    span_inside(v.top, v.height, h) & span_inside(v.left, v.width, w)
}

fn grid_side_allowed(s: PictureSettings, g: usize) -> bool
    requires { Divides s }
    ensures { result ≡ grid_allowed s g }
{
    let p = s.patch_size;
    let m = s.spatial_merge_size;
    ((1 <= g) & (g <= s.image_size / p)) & (g % m == 0)
}

// Whether settings and grid are allowed: numbers 1 and 6 do not apply.
pub fn grid_allowed(s: PictureSettings, grid_h: usize, grid_w: usize) -> bool
    ensures { result ≡ (allowed s && (grid_allowed s grid_h && grid_allowed s grid_w)) }
{
    if !settings_allowed(s) {
        return false;
    }
    grid_side_allowed(s, grid_h) & grid_side_allowed(s, grid_w)
}

// What restore and forward ask of settings, grid and patches: numbers 1, 6 and 7, in that order. The answer is the tokens.
pub fn shape(
    s: PictureSettings,
    grid_h: usize,
    grid_w: usize,
    patches: usize,
) -> Result<usize, Refusal>
    ensures { result ≡ shaped s grid_h grid_w patches }
{
    if !settings_allowed(s) {
        return Err(Refusal::Setting);
    }
    if !(grid_side_allowed(s, grid_h) & grid_side_allowed(s, grid_w)) {
        return Err(Refusal::Grid);
    }
    let p = s.patch_size;
    let t = grid_h * grid_w;
    if patches != t * (3 * (p * p)) {
        return Err(Refusal::PatchesLength);
    }
    Ok(t)
}
