// Whole numbers near an f64, and Rust's `as` from an f64.
ghost use Rattle.std.specs.Prelude.{◌≡◌};
ghost use Rattle.std.specs.Float.Ieee as Ieee;
ghost use Rattle.number_floats.specs.Whole.{floor, away};

// The largest whole number not above y. A zero keeps its sign, as in Rust's `floor`.
pub fn floor_f64(y: f64) -> f64
    ensures { result ≡ floor y }
{
    y.floor()
}

// The nearest whole number, a tie away from zero. A zero keeps its sign, as in Rust's `round`.
pub fn round_f64(y: f64) -> f64
    ensures { result ≡ away y }
{
    y.round()
}

// Rust's `as usize`: toward zero, and to the nearest end where out of range; a NaN gives 0.
#[tactic(auto, using(crate::proofs::Casts::top_of_64))]
pub fn f64_to_usize(x: f64) -> usize
    ensures { result ≡ Ieee.to_unsigned 64 x }
{
    std::num::saturating_f64_to_usize(x)
}

// Rust's `as u8`.
#[tactic(auto, using(crate::proofs::Casts::top_of_8))]
pub fn f64_to_u8(x: f64) -> u8
    ensures { result ≡ Ieee.to_unsigned 8 x }
{
    std::num::saturating_f64_to_u8(x)
}
