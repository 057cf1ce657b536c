// Floats and their bit patterns, total: every NaN pattern is the NaN, whose pattern is 0x7FC0_0000
// (of an f64 0x7FF8_0000_0000_0000).
ghost use Rattle.std.specs.Prelude.{◌≡◌};
ghost use Rattle.std.specs.Float.Ieee as Ieee;
ghost use Rattle.std.specs.Float.{binary32, binary64};

pub fn f32_of_bits(b: u32) -> f32
    ensures { result ≡ Ieee.of_bits binary32 b }
{
    std::num::f32_from_bits_with_nan(b)
}

#[tactic(auto, using(crate::proofs::Casts::nan_bits))]
pub fn bits_of_f32(x: f32) -> u32
    ensures { result ≡ Ieee.to_bits binary32 x }
{
    std::num::f32_to_bits_with_nan(x)
}

pub fn bits_of_f64(x: f64) -> u64
    ensures { result ≡ Ieee.to_bits binary64 x }
{
    std::num::f64_to_bits_with_nan(x)
}
