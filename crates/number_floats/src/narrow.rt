// An f64 narrowed to an f32: to the nearest, a tie to the even pattern.
ghost use Rattle.std.specs.Prelude.{◌≡◌, ◌^◌, ◌<◌, ◌≤◌};
ghost use Rattle.std.specs.Float.Ieee.Nearest.{closest};
ghost use Rattle.number_floats.specs.Size.{size32, size64, Nearest};
ghost use Rattle.number_floats.specs.Narrow as S;

// m / 2^s to the nearest whole number, a tie to the even one.
fn round_shift(m: u64, s: u64) -> u64
    requires { (0 < s) × (s < 63) × (m < 2 ^ 63) }
    ensures { result ≡ closest m (2 ^ s) }
{
    let unit = 1u64 << s;
    let q = m >> s;
    let twice = (m & (unit - 1)) * 2;
    if twice < unit {
        q
    } else if twice == unit {
        q + (q & 1)
    } else {
        q + 1
    }
}

// The f32's pattern for an f64's pattern a below its sign, no NaN's.
fn narrow_size(a: u64) -> u32
    requires { a ≤ 0x7FF0_0000_0000_0000 }
    ensures { Nearest size32 0x7F80_0000 (size64 a) result }
{
    let e = a >> 52;
    // below half of the smallest f32
    if e < 872 {
        return 0;
    }
    let m = (a & 0xF_FFFF_FFFF_FFFF) + 0x10_0000_0000_0000;
    // among the subnormal f32s, whose unit is 2^-149
    if e < 897 {
        return round_shift(m, 926 - e) as u32;
    }
    // a carry out of the 24 digits is one more in the exponent's field
    let r = ((e - 897) << 23) + round_shift(m, 29);
    if r < 0x7F80_0000 {
        r as u32
    } else {
        0x7F80_0000
    }
}

pub fn narrow(b: u64) -> u32
    ensures { result ≡ S.narrow_bits b }
{
    let a = b & 0x7FFF_FFFF_FFFF_FFFF;
    if 0x7FF0_0000_0000_0000 < a {
        return 0x7FC0_0000;
    }
    (((b >> 63) as u32) << 31) | narrow_size(a)
}

pub fn narrow_f64(x: f64) -> f32
    ensures { result ≡ S.narrow x }
{
    crate::pattern::f32_of_bits(narrow(crate::pattern::bits_of_f64(x)))
}

// Every f32 is an f64.
pub fn widen_f32(x: f32) -> f64
    ensures { result ≡ x }
{
    std::num::f32_to_f64_with_nan(x)
}
