// Whether the padding of a tile is byte 0's.
ghost use Rattle.std.specs.Prelude.{◌≡◌, ◌+◌, ◌*◌, ◌/◌, ◌≤◌, ◌<◌, length};
ghost use Rattle.picture_limits.specs.Places.{sample_place};
ghost use Rattle.picture_samples.specs.Samples.{entry};
ghost use Rattle.picture_tiles.specs.inner.Padding.{own_columns, zero_pixel, zero_row, zero_rows};

use number_floats::pattern::bits_of_f32;
use picture_limits::View;

// Whether the samples of a pixel, n apart from `from` on, are those of byte 0.
fn zero_pixel(patches: &[f32], n: usize, from: usize, t: &[u32; 768]) -> bool
    requires { from + 2 * n < length patches.now }
    ensures { result ≡ zero_pixel (entry t.now) n patches.now from }
{
    let red = bits_of_f32(patches[from]) == t[0];
    let green = bits_of_f32(patches[from + n]) == t[256];
    let blue = bits_of_f32(patches[from + 2 * n]) == t[512];
    red & green & blue
}

// How many columns of row y are the view's: the first ones.
fn own_width(v: View, y: usize) -> usize
    ensures { result ≡ own_columns v y }
{
    if y < v.height { v.width } else { 0 }
}

// Where the first sample of the pixel at row y and column x lies.
fn first_place(p: usize, gw: usize, y: usize, x: usize) -> usize
    requires { (0 < p) × (p ≤ 32) × (gw ≤ 2048) × (y ≤ 65536) × (x ≤ 65536) }
    ensures { result ≡ sample_place p gw y x 0 }
{
    (y / p * gw + x / p) * (3 * (p * p)) + (y % p * p + x % p)
}

// Whether each pixel of row y that is not the view's is byte 0's.
fn zero_row(patches: &[f32], p: usize, gw: usize, y: usize, v: View, t: &[u32; 768]) -> bool
    requires { (0 < p) × (p ≤ 32) × (gw ≤ 2048) × (y ≤ 65536) × ((y / p * gw + gw) * (3 * (p * p)) ≤ length patches.now) × (v.width ≤ gw * p) }
    ensures { result ≡ zero_row (entry t.now) p gw patches.now v y }
{
    let n = p * p;
    let wide = gw * p;
    for x in own_width(v, y)..wide {
        if !zero_pixel(patches, n, first_place(p, gw, y, x), t) {
            return false;
        }
    }
    true
}

// Whether each pixel of gh rows of gw patches that is not the view's is byte 0's.
pub(crate) fn zero_rows(
    patches: &[f32],
    p: usize,
    gh: usize,
    gw: usize,
    v: View,
    t: &[u32; 768],
) -> bool
    requires { (0 < p) × (p ≤ 32) × (gh ≤ 2048) × (gw ≤ 2048) × (length patches.now ≡ gh * gw * (3 * (p * p))) × (v.width ≤ gw * p) }
    ensures { result ≡ zero_rows (entry t.now) p gh gw patches.now v }
{
    let tall = gh * p;
    for y in 0..tall {
        if !zero_row(patches, p, gw, y, v, t) {
            return false;
        }
    }
    true
}
