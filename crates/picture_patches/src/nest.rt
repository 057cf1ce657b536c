// The nest of loops over the patches of a view: lines, patches, channels and rows, each written behind the one before.
ghost use Rattle.std.specs.Prelude.{◌≡◌, ◌+◌, ◌*◌, ◌≤◌, ◌<◌, length};
ghost use Rattle.buffers.specs.Region.{put};
ghost use Rattle.picture_samples.specs.Samples.{entry};
ghost use Rattle.picture_samples.specs.inner.Clean.{Clean};
ghost use Rattle.picture_patches.specs.Patches.{patch_channel, patch_at, patch_line, patches};
ghost use Rattle.picture_patches.specs.inner.Frame.{Framed, Inside, viewed};

use crate::rows::Frame;
use crate::view::view_row;
use picture_limits::View;

// A channel of the patch whose first row and column are r and x.
fn patch_channel(
    rgb: &[u8],
    f: Frame,
    v: View,
    r: usize,
    x: usize,
    c: usize,
    at: usize,
    out: &mut [f32],
    t: &[u32; 768],
)
    requires { Framed f (length rgb.now) × Clean t.now × Inside f v × (r + f.p ≤ f.th) × (x + f.p ≤ f.tw) × (c < 3) × (at + f.p * f.p ≤ length out.old) }
    ensures { out.new ≡ put out.old at (patch_channel f.p (viewed (entry t.now) f v rgb.now) r x c) }
{
    let p = f.p;
    for i in 0..p {
        view_row(rgb, f, v, r + i, x, c, at + i * p, out, t);
    }
}

// The three channels of a patch.
fn patch_at(
    rgb: &[u8],
    f: Frame,
    v: View,
    r: usize,
    x: usize,
    at: usize,
    out: &mut [f32],
    t: &[u32; 768],
)
    requires { Framed f (length rgb.now) × Clean t.now × Inside f v × (r + f.p ≤ f.th) × (x + f.p ≤ f.tw) × (at + 3 * (f.p * f.p) ≤ length out.old) }
    ensures { out.new ≡ put out.old at (patch_at f.p (viewed (entry t.now) f v rgb.now) r x) }
{
    let n = f.p * f.p;
    for c in 0..3 {
        patch_channel(rgb, f, v, r, x, c, at + c * n, out, t);
    }
}

// The patches side by side whose first row is r.
pub(crate) fn patch_line(
    rgb: &[u8],
    f: Frame,
    v: View,
    r: usize,
    at: usize,
    out: &mut [f32],
    t: &[u32; 768],
)
    requires { Framed f (length rgb.now) × Clean t.now × Inside f v × (r + f.p ≤ f.th) × (at + f.gw * (3 * (f.p * f.p)) ≤ length out.old) }
    ensures { out.new ≡ put out.old at (patch_line f.p f.gw (viewed (entry t.now) f v rgb.now) r) }
{
    let p = f.p;
    let n = 3 * (p * p);
    for b in 0..f.gw {
        patch_at(rgb, f, v, r, b * p, at + b * n, out, t);
    }
}

// All patches, line below line, over the front of `out`.
pub(crate) fn all_patches(rgb: &[u8], f: Frame, v: View, out: &mut [f32], t: &[u32; 768])
    requires { Framed f (length rgb.now) × Clean t.now × Inside f v × (f.gh * (f.gw * (3 * (f.p * f.p))) ≤ length out.old) }
    ensures { out.new ≡ put out.old 0 (patches f.p f.gh f.gw (viewed (entry t.now) f v rgb.now)) }
{
    let p = f.p;
    let n = f.gw * (3 * (p * p));
    for a in 0..f.gh {
        patch_line(rgb, f, v, a * p, a * n, out, t);
    }
}
