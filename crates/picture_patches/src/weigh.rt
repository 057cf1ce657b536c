// The rows of a strip of the resized picture: two rows of the source weighed across, kept while target rows use them, and then
// weighed down.
ghost use Rattle.std.specs.Prelude.{◌≡◌, ◌+◌, ◌*◌, ◌%◌, ◌≤◌, ◌<◌, length, get_or, set};
ghost use Rattle.std.specs.Float.{binary64};
ghost use Rattle.std.specs.Float.Ieee.{mul};
ghost use Rattle.buffers.specs.Rows.{tab};
ghost use Rattle.buffers.specs.Region.{put};
ghost use Rattle.picture_resize.specs.Resize.{whole};
ghost use Rattle.picture_patches.specs.inner.Frame.{Framed};
ghost use Rattle.picture_patches.specs.inner.Places.{Placed};
ghost use Rattle.picture_patches.specs.inner.Strip.{left_row, right_row, Held, Slots, mixed_row, Mixes};

use crate::places::{Place, near_at};
use crate::rows::Frame;
use picture_resize::weighed_byte;

// The three bytes of a pixel, each times g.
fn weigh_pixel(rgb: &[u8], from: usize, g: f64, at: usize, out: &mut [f64])
    requires { (from + 3 ≤ length rgb.now) × (at + 3 ≤ length out.old) }
    ensures { out.new ≡ put out.old at (tab 3 (λ c. mul binary64 (whole (get_or rgb.now (from + c) 0)) g)) }
{
    let red = (rgb[from] as f64) * g;
    let green = (rgb[from + 1] as f64) * g;
    let blue = (rgb[from + 2] as f64) * g;
    out[at] = red;
    out[at + 1] = green;
    out[at + 2] = blue;
}

// Row y of the source, weighed for n columns of the target from column x on: the first neighbours' bytes to `left`, the
// second ones' to `right`.
fn weigh_row(
    rgb: &[u8],
    f: Frame,
    y: usize,
    x: usize,
    n: usize,
    at: usize,
    left: &mut [f64],
    right: &mut [f64],
    columns: &[Place],
)
    requires { Framed f (length rgb.now) × Placed f.w f.tw columns.now × (y < f.h) × (x + n ≤ f.tw) × (at + n * 3 ≤ length left.old) × (at + n * 3 ≤ length right.old) }
    ensures left_after { left.new ≡ put left.old at (left_row rgb.now f.w f.tw y x n) }
    ensures right_after { right.new ≡ put right.old at (right_row rgb.now f.w f.tw y x n) }
{
    let w = f.w;
    let tw = f.tw;
    for j in 0..n {
        let o = at + j * 3;
        let s = near_at(w, tw, x + j, columns);
        weigh_pixel(rgb, (y * w + s.low) * 3, 1.0 - s.part, o, left);
        weigh_pixel(rgb, (y * w + s.high) * 3, s.part, o, right);
    }
}

// Row y of the source, weighed, in the slot of its parity, if it is not there already. A row's neighbour is of the other
// parity, so both stay for the target rows between them.
pub(crate) fn hold(
    rgb: &[u8],
    f: Frame,
    y: usize,
    x: usize,
    n: usize,
    held: &mut [usize],
    left: &mut [f64],
    right: &mut [f64],
    columns: &[Place],
)
    requires { Framed f (length rgb.now) × Placed f.w f.tw columns.now × (y < f.h) × (x + n ≤ f.tw) × Slots n (length left.old) (length right.old) × Held rgb.now f x n held.old left.old right.old }
    ensures held_after { held.new ≡ set held.old (y % 2) (y + 1) }
    ensures held { Held rgb.now f x n held.new left.new right.new }
{
    let s = y % 2;
    if held[s] != y + 1 {
        weigh_row(rgb, f, y, x, n, s * 768, left, right, columns);
    }
    held[s] = y + 1;
}

// k bytes of a target row: of the source's upper row from u on, and of its lower row from v on.
pub(crate) fn mix_row(
    left: &[f64],
    right: &[f64],
    u: usize,
    v: usize,
    g: f64,
    f: f64,
    k: usize,
    at: usize,
    out: &mut [u8],
)
    requires { Mixes u v k at (length left.now) (length right.now) (length out.old) }
    ensures { out.new ≡ put out.old at (mixed_row left.now right.now u v g f k) }
{
    for e in 0..k {
        out[at + e] = weighed_byte(left[u + e], right[u + e], left[v + e], right[v + e], g, f);
    }
}
