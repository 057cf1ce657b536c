// Patches back to a view of a picture.
ghost use Rattle.std.specs.Prelude.{◌≡◌, length};
ghost use Rattle.picture_samples.specs.Samples.{entry};
ghost use Rattle.picture_view.specs.View.{view_fits, view_back, view_out};

use crate::{all_known, formula_of, restore_rows};
use picture_limits::settings::{sides_allowed, view_inside};
use picture_limits::{PictureSettings, View};
use picture_samples::allowed::channels_allowed;
use picture_spot::way_of;

// Whether len floats are the patches of a grid that covers the view, and the view lies in a picture of h rows and w columns,
// for which there is room. No product is formed before its factors are bounded.
fn view_fits(
    len: usize,
    p: usize,
    gh: usize,
    gw: usize,
    v: View,
    h: usize,
    w: usize,
    room: usize,
) -> bool
    ensures { result ≡ view_fits len p gh gw v h w room }
{
    if !sides_allowed(h, w) {
        return false;
    }
    if !(((1 <= p) & (p <= 32)) & (gh <= 2048) & (gw <= 2048)) {
        return false;
    }
    if !view_inside(v, h, w) {
        return false;
    }
    (len == gh * gw * (3 * (p * p)))
        & (v.height <= gh * p)
        & (v.width <= gw * p)
        & (h * w * 3 <= room)
}

// The bytes of a view, found from its patches by the table t, at their places in `out`, the bytes of a picture of h rows and
// w columns. Every sample of the patches is tested before the first byte is written; the settings' means and deviations only
// help to find bytes fast.
pub fn restore_view(
    s: PictureSettings,
    patches: &[f32],
    grid_h: usize,
    grid_w: usize,
    v: View,
    h: usize,
    w: usize,
    out: &mut [u8],
    t: &[u32; 768],
) -> bool
    ensures answer { result ≡ view_back (entry t.now) s.patch_size grid_h grid_w patches.now v h w (length out.old) }
    ensures output { out.new ≡ view_out (entry t.now) s.patch_size grid_h grid_w patches.now v h w out.old }
{
    let p = s.patch_size;
    if !(channels_allowed(t) & view_fits(patches.len(), p, grid_h, grid_w, v, h, w, out.len())) {
        return false;
    }
    let mean = s.mean;
    let deviation = s.deviation;
    let way = way_of(t, mean, deviation);
    let formula = formula_of(t, mean, deviation);
    if !all_known(patches, p, grid_h * grid_w, t, way, formula) {
        return false;
    }
    let at = (v.top * w + v.left) * 3;
    restore_rows(
        patches,
        p,
        grid_w,
        v.height,
        v.width,
        at,
        w * 3,
        out,
        t,
        way,
    );
    true
}
