// The patches of a picture resized: strip by strip the resized picture is worked out in a small picture of its own, which is
// then cut like any other.
ghost use Rattle.std.specs.Prelude.{◌≡◌, ℕ, ◌+◌, ◌*◌, ◌≤◌, ◌<◌, length, get_or};
ghost use Rattle.buffers.specs.Region.{put};
ghost use Rattle.picture_samples.specs.Samples.{entry};
ghost use Rattle.picture_samples.specs.inner.Clean.{Clean};
ghost use Rattle.picture_patches.specs.Patches.{patch_line, patches};
ghost use Rattle.picture_patches.specs.inner.Frame.{Framed, Ready, mixed, strip_frame};
ghost use Rattle.picture_patches.specs.inner.Strip.{span, Held, Slots, RowAt, Banded};

use crate::nest::patch_line;
use crate::places::{MOST, Place, near_at, places};
use crate::rows::Frame;
use crate::weigh::{hold, mix_row};
use picture_limits::View;

// Row r of the resized picture, n columns from column x on, from `at` on.
fn strip_row(
    rgb: &[u8],
    f: Frame,
    r: usize,
    x: usize,
    n: usize,
    at: usize,
    held: &mut [usize],
    left: &mut [f64],
    right: &mut [f64],
    band: &mut [u8],
    rows: &[Place],
    columns: &[Place],
)
    requires { Ready f (length rgb.now) rows.now columns.now × (r < f.th) × (x + n ≤ f.tw) × Slots n (length left.old) (length right.old) × Held rgb.now f x n held.old left.old right.old × (at + span ≤ length band.old) }
    ensures held { Held rgb.now f x n held.new left.new right.new }
    ensures row_at { RowAt rgb.now f r x n at band.new }
    ensures by_index { (k : ℕ) → k < at → get_or band.new k 0 ≡ get_or band.old k 0 }
{
    let y = near_at(f.h, f.th, r, rows);
    let low = y.low;
    let high = y.high;
    let part = y.part;
    hold(rgb, f, low, x, n, held, left, right, columns);
    hold(rgb, f, high, x, n, held, left, right, columns);
    mix_row(
        left,
        right,
        low % 2 * 768,
        high % 2 * 768,
        1.0 - part,
        part,
        n * 3,
        at,
        band,
    );
}

// The strip of p rows and n columns whose first row and column are r and x, as a small picture.
fn fill_strip(
    rgb: &[u8],
    f: Frame,
    r: usize,
    x: usize,
    n: usize,
    left: &mut [f64],
    right: &mut [f64],
    band: &mut [u8],
    rows: &[Place],
    columns: &[Place],
)
    requires { Ready f (length rgb.now) rows.now columns.now × (r + f.p ≤ f.th) × (x + n ≤ f.tw) × Slots n (length left.old) (length right.old) × (32 * span ≤ length band.old) }
    ensures { Banded rgb.now f r x n f.p band.new }
{
    let p = f.p;
    let mut held = [0usize; 2];
    for i in 0..p {
        strip_row(
            rgb,
            f,
            r + i,
            x,
            n,
            i * 768,
            &mut held,
            left,
            right,
            band,
            rows,
            columns,
        );
    }
}

// The frame of a strip of m patches of side p, in a picture of 32 rows of 256 pixels.
fn strip_frame(p: usize, m: usize) -> Frame
    requires { (p ≤ 32) × (m * p ≤ 256) }
    ensures { result ≡ strip_frame p m }
{
    Frame {
        h: 32,
        w: 256,
        th: p,
        tw: m * p,
        p,
        gh: 1,
        gw: m,
    }
}

// The patches side by side whose first row is r, of the picture resized.
fn mixed_line(
    rgb: &[u8],
    f: Frame,
    r: usize,
    at: usize,
    out: &mut [f32],
    t: &[u32; 768],
    left: &mut [f64],
    right: &mut [f64],
    band: &mut [u8],
    rows: &[Place],
    columns: &[Place],
)
    requires { Ready f (length rgb.now) rows.now columns.now × Clean t.now × (r + f.p ≤ f.th) × (at + f.gw * (3 * (f.p * f.p)) ≤ length out.old) × Slots 0 (length left.old) (length right.old) × (length band.old ≡ 32 * span) }
    ensures { out.new ≡ put out.old at (patch_line f.p f.gw (mixed (entry t.now) f rgb.now) r) }
{
    let p = f.p;
    let gw = f.gw;
    let most = 256 / p;
    let mut b = 0usize;
    let mut o = at;
    // A `for` would count strips and then ask for each how many patches are left: here the count of patches says both.
    while b < gw {
        let m = most.min(gw - b);
        fill_strip(rgb, f, r, b * p, m * p, left, right, band, rows, columns);
        let v = View {
            top: 0,
            left: 0,
            height: p,
            width: m * p,
        };
        patch_line(band, strip_frame(p, m), v, 0, o, out, t);
        o += m * (3 * (p * p));
        b += m;
    }
}

// All patches of the picture resized, line below line, over the front of `out`.
fn mixed_patches(
    rgb: &[u8],
    f: Frame,
    out: &mut [f32],
    t: &[u32; 768],
    left: &mut [f64],
    right: &mut [f64],
    band: &mut [u8],
    rows: &[Place],
    columns: &[Place],
)
    requires { Ready f (length rgb.now) rows.now columns.now × Clean t.now × (f.gh * (f.gw * (3 * (f.p * f.p))) ≤ length out.old) × Slots 0 (length left.old) (length right.old) × (length band.old ≡ 32 * span) }
    ensures { out.new ≡ put out.old 0 (patches f.p f.gh f.gw (mixed (entry t.now) f rgb.now)) }
{
    let p = f.p;
    let n = f.gw * (3 * (p * p));
    for a in 0..f.gh {
        mixed_line(
            rgb,
            f,
            a * p,
            a * n,
            out,
            t,
            left,
            right,
            band,
            rows,
            columns,
        );
    }
}

// The same, with the neighbours of rows and columns worked out first. Its 115 KB are a frame of their own, so that they do not
// lie below what its callers call before.
#[inline(never)]
pub(crate) fn resized_all(rgb: &[u8], f: Frame, out: &mut [f32], t: &[u32; 768])
    requires { Framed f (length rgb.now) × Clean t.now × (f.gh * (f.gw * (3 * (f.p * f.p))) ≤ length out.old) }
    ensures { out.new ≡ put out.old 0 (patches f.p f.gh f.gw (mixed (entry t.now) f rgb.now)) }
{
    let nowhere = Place { low: 0, part: 0.0 };
    let mut rows = [nowhere; MOST];
    places(f.h, f.th, &mut rows);
    let mut columns = [nowhere; MOST];
    places(f.w, f.tw, &mut columns);
    let mut left = [0.0f64; 1536];
    let mut right = [0.0f64; 1536];
    let mut band = [0u8; 24576];
    mixed_patches(
        rgb, f, out, t, &mut left, &mut right, &mut band, &rows, &columns,
    );
}
