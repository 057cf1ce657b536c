// The patches of a picture resized, and of a view of it: each patch is three channels of p rows of p samples.
ghost use Rattle.std.specs.Prelude.{◌≡◌};
ghost use Rattle.picture_samples.specs.Samples.{entry};
ghost use Rattle.picture_patches.specs.Resized.{fits, patches_over};
ghost use Rattle.picture_patches.specs.Viewed.{view_over};

use crate::nest::all_patches;
use crate::rows::Frame;
use crate::strip::resized_all;
use picture_limits::View;
use picture_limits::settings::{sides_allowed, view_inside};
use picture_samples::allowed::channels_allowed;

// Whether len bytes are h rows of w pixels, and the patches of side p of the picture resized to th rows of tw
// pixels fit into room. A target's sides go to 2048, the largest image size. No product is formed before its
// factors are bounded.
fn patches_fit(len: usize, h: usize, w: usize, th: usize, tw: usize, p: usize, room: usize) -> bool
    ensures { result ≡ fits len h w th tw p room }
{
    if !sides_allowed(h, w) {
        return false;
    }
    if !((th <= 2048) & (tw <= 2048) & ((1 <= p) & (p <= 32))) {
        return false;
    }
    (len == h * w * 3) & (th / p * (tw / p) * (3 * (p * p)) <= room)
}

// The patches of side p of a picture resized to th rows of tw pixels, by the table t, over the front of `out`; nothing
// where they do not fit, or the table's channels are not allowed.
pub fn resized_patches(
    rgb: &[u8],
    h: usize,
    w: usize,
    th: usize,
    tw: usize,
    p: usize,
    out: &mut [f32],
    t: &[u32; 768],
)
    ensures { out.new ≡ patches_over (entry t.now) rgb.now h w th tw p out.old }
{
    if !(channels_allowed(t) & patches_fit(rgb.len(), h, w, th, tw, p, out.len())) {
        return;
    }
    let f = Frame {
        h,
        w,
        th,
        tw,
        p,
        gh: th / p,
        gw: tw / p,
    };
    if (th == h) & (tw == w) {
        let v = View {
            top: 0,
            left: 0,
            height: h,
            width: w,
        };
        all_patches(rgb, f, v, out, t);
        return;
    }
    resized_all(rgb, f, out, t);
}

// The patches of side p of a view of a picture, padded with zero bytes right and below to th rows of tw pixels, by the
// table t, over the front of `out`; nothing where they do not fit, the view does not lie inside the picture, or the
// table's channels are not allowed.
pub fn view_patches(
    rgb: &[u8],
    h: usize,
    w: usize,
    v: View,
    th: usize,
    tw: usize,
    p: usize,
    out: &mut [f32],
    t: &[u32; 768],
)
    ensures { out.new ≡ view_over (entry t.now) rgb.now h w v th tw p out.old }
{
    if !(channels_allowed(t) & patches_fit(rgb.len(), h, w, th, tw, p, out.len())) {
        return;
    }
    if !view_inside(v, h, w) {
        return;
    }
    let f = Frame {
        h,
        w,
        th,
        tw,
        p,
        gh: th / p,
        gw: tw / p,
    };
    all_patches(rgb, f, v, out, t);
}
