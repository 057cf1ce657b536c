// A byte of the picture resized.
ghost use Rattle.std.specs.Prelude.{◌≡◌, ◌+◌, ◌*◌, ◌≤◌, ◌<◌, length};
ghost use Rattle.picture_resize.specs.Resize.{whole, pixel, mix, resized_byte};

use picture_limits::settings::sides_allowed;
use picture_resize::{Near, blend_byte, near_of};

// The byte at a row, a column and a channel, as a float.
fn pixel_of(rgb: &[u8], w: usize, y: usize, x: usize, c: usize) -> f64
    requires { (y * w + x) * 3 + c < length rgb.now }
    ensures { result ≡ whole (pixel rgb.now w y x c) }
{
    rgb[(y * w + x) * 3 + c] as f64
}

// The resized byte of two neighbours down and two across, in a channel.
fn mix_of(rgb: &[u8], w: usize, y: Near, x: Near, c: usize) -> u8
    requires { ((y.low * w + w) * 3 ≤ length rgb.now) × ((y.high * w + w) * 3 ≤ length rgb.now) × (x.low < w) × (x.high < w) × (c < 3) }
    ensures { result ≡ mix rgb.now w y x c }
{
    let v00 = pixel_of(rgb, w, y.low, x.low, c);
    let v01 = pixel_of(rgb, w, y.low, x.high, c);
    let v10 = pixel_of(rgb, w, y.high, x.low, c);
    let v11 = pixel_of(rgb, w, y.high, x.high, c);
    blend_byte(v00, v01, v10, v11, y.part, x.part)
}

// The resized picture's byte at row dy, column dx and channel c; 0 where src is not h rows of w pixels, or there is no
// such channel. The target's sides are th and tw, the Rust's dst_h and dst_w.
pub fn bilinear_resize_rgb(
    src: &[u8],
    h: usize,
    w: usize,
    th: usize,
    tw: usize,
    dy: usize,
    dx: usize,
    c: usize,
) -> u8
    ensures { result ≡ resized_byte src.now h w th tw dy dx c }
{
    if !sides_allowed(h, w) {
        return 0;
    }
    if src.len() != h * w * 3 {
        return 0;
    }
    if 3 <= c {
        return 0;
    }
    mix_of(src, w, near_of(h, th, dy), near_of(w, tw, dx), c)
}
