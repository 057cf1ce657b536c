// The numbers of the bilinear resize: where an index lies in the source, and the byte of four neighbours.
#![tactic(auto)]

ghost use Rattle.std.specs.Prelude.{◌≡◌};
ghost use Rattle.picture_resize.specs.Resize.{whole, near, blend, to_byte};
ghost use Rattle.picture_resize.specs.inner.Weighed.{weighed, held, Held};

use number_floats::whole::{f64_to_usize, floor_f64};

// Where an index of the target lies in the source: two neighbours, and how far from the first.
#[derive(Drop)]
pub struct Near {
    pub low: usize,
    pub high: usize,
    pub part: f64,
}

fn whole_of(n: usize) -> f64
    ensures { result ≡ whole n }
{
    std::num::nearest_u64_to_f64(n as u64)
}

// Where index i of a side of length `to` lies in a side of length `from`.
pub fn near_of(from: usize, to: usize, i: usize) -> Near
    ensures { result ≡ near from to i }
{
    let y = whole_of(i) * (whole_of(from) / whole_of(to));
    let last = from.saturating_sub(1);
    let low = f64_to_usize(floor_f64(y)).min(last);
    let high = (low + 1).min(last);
    Near {
        low,
        high,
        part: y - whole_of(low),
    }
}

// x held from 0 to 255; 0 where it is no number.
fn held_of(x: f64) -> f64
    ensures { result ≡ held x }
{
    let low = if 0.0 < x { x } else { 0.0 };
    if low < 255.0 { low } else { 255.0 }
}

// Rounded half away from zero, as a byte, without a branch: adding 2^52 leaves the nearest whole number in the low bits, a
// tie at the even one, which lies a half below z where it is not the one away from zero.
fn near_byte(z: f64) -> u8
    requires { Held z }
    ensures { result ≡ to_byte z }
{
    let s = z + 4503599627370496.0;
    let t = s - 4503599627370496.0;
    let up = !(z < t + 0.5) as u64;
    ((f64::to_bits(s) + up) % 256) as u8
}

// The resized byte of two neighbours of an upper row and two of a lower one, weighed across already; g and f are the rows'
// weights.
pub fn weighed_byte(a0: f64, b0: f64, a1: f64, b1: f64, g: f64, f: f64) -> u8
    ensures { result ≡ to_byte (weighed a0 b0 a1 b1 g f) }
{
    near_byte(held_of(a0 * g + b0 * g + a1 * f + b1 * f))
}

// The resized byte of four neighbours, weighed.
pub fn blend_byte(v00: f64, v01: f64, v10: f64, v11: f64, fy: f64, fx: f64) -> u8
    ensures { result ≡ to_byte (blend v00 v01 v10 v11 fy fx) }
{
    weighed_byte(
        v00 * (1.0 - fx),
        v01 * fx,
        v10 * (1.0 - fx),
        v11 * fx,
        1.0 - fy,
        fy,
    )
}
