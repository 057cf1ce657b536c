// bf16: an f32 rounded to its upper 16 bits.
ghost use Rattle.std.specs.Prelude.{◌≡◌};
ghost use Rattle.number_bf16_half_root.specs.Bf16 as S;

pub fn bf16(x: u32) -> u32
    ensures { result ≡ S.bf16 x }
{
    let rounding = 0x7FFF + ((x >> 16) & 1);
    std::num::wrapping_add_u32(x, rounding) & 0xFFFF_0000
}

pub fn bf16_f32(x: f32) -> f32
    ensures { result ≡ S.bf16_of x }
{
    number_floats::pattern::f32_of_bits(bf16(number_floats::pattern::bits_of_f32(x)))
}
