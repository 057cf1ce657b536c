// A half's pattern as an f32's.
ghost use Rattle.std.specs.Prelude.{◌≡◌, ◌^◌, ◌<◌};
ghost use Rattle.number_bf16_half_root.specs.Half.{half, half_size, subnormal};

// The mantissa m of a subnormal is shifted until it has 11 digits, the leading one and the 10 that are kept: a u32 of 11
// digits has 21 leading zeros. The exponent falls by one with each place.
fn half_subnormal(m: u32) -> u32
    requires { (0 < m) × (m < 2 ^ 10) }
    ensures { result ≡ subnormal m }
{
    let shift = u32::leading_zeros(m) - 21;
    ((127 - 15 + 1 - shift) << 23) | (((m << shift) & 0x3FF) << 13)
}

fn half_size(exp: u32, mantissa: u32) -> u32
    requires { (exp < 2 ^ 5) × (mantissa < 2 ^ 10) }
    ensures { result ≡ half_size exp mantissa }
{
    if exp == 0 {
        if mantissa == 0 {
            return 0;
        }
        return half_subnormal(mantissa);
    }
    if exp == 31 {
        return (0xFF << 23) | (mantissa << 13);
    }
    ((exp + 127 - 15) << 23) | (mantissa << 13)
}

pub fn half_to_f32(bits: u16) -> u32
    ensures { result ≡ half bits }
{
    let h = bits as u32;
    let sign = h >> 15;
    let exp = (h >> 10) & 0x1F;
    let mantissa = h & 0x3FF;
    (sign << 31) | half_size(exp, mantissa)
}
