// E, the exponential of the rules, and F, its f64 before narrowing.
ghost use Rattle.std.specs.Prelude.{◌≡◌};
ghost use Rattle.number_floats.specs.inner.Bounds.{AtMost};
ghost use Rattle.number_exp_tanh.specs.Exp.{series, two_to, k_of, r_with, F, E, exp_bits};
ghost use Rattle.number_floats.specs.Constants.{one64};

// 2^k for a whole number k.
fn two_to(k: f64) -> f64
    requires { AtMost 1000 k }
    ensures { result ≡ two_to k }
{
    if k < 0.0 {
        return f64::from_bits((1023 - std::num::truncating_f64_to_u64(-k)) << 52);
    }
    f64::from_bits((1023 + std::num::truncating_f64_to_u64(k)) << 52)
}

// The ten terms.
fn series_of(r: f64) -> f64
    ensures { result ≡ series r 10 one64 }
{
    let mut p = 1.0;
    for i in (1u32..11).rev() {
        p = 1.0 + (r * p) / f64::from(i);
    }
    p
}

// k of the rule, for x in f64.
pub fn k_of(x: f64) -> f64
    ensures { result ≡ k_of x }
{
    let l = f64::from_bits(0x3FE6_2E42_FEFA_39EF);
    number_floats::whole::floor_f64(x / l + 0.5)
}

// r of the rule, where k is x's.
pub fn r_of(x: f64, k: f64) -> f64
    ensures { result ≡ r_with x k }
{
    x - k * f64::from_bits(0x3FE6_2E42_FEFA_39EF)
}

// F. The bound on x bounds k, so that 2^k is an f64.
pub(crate) fn exp_f64(x: f64) -> f64
    requires { AtMost 104 x }
    ensures { result ≡ F x }
{
    let k = k_of(x);
    let p = series_of(r_of(x, k));
    p * two_to(k)
}

pub fn exp_f32(x: f32) -> f32
    ensures { result ≡ E x }
{
    if x != x {
        return x;
    }
    if 89.0 <= x {
        return 1.0 / 0.0;
    }
    if x <= -104.0 {
        return 0.0;
    }
    number_floats::narrow::narrow_f64(exp_f64(number_floats::narrow::widen_f32(x)))
}

pub fn exp(x: u32) -> u32
    ensures { result ≡ exp_bits x }
{
    number_floats::pattern::bits_of_f32(exp_f32(number_floats::pattern::f32_of_bits(x)))
}
