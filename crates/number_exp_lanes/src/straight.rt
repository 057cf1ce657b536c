// The steps of E without a branch, so that sixteen of them run side by side: for values from -86 to 88, whose results are
// normal f32s.
ghost use Rattle.std.specs.Prelude.{◌≡◌, true, get_or};
ghost use Rattle.std.specs.Float.{nan, binary64};
ghost use Rattle.std.specs.Float.Ieee.{mul};
ghost use Rattle.buffers.specs.Rows.{tab, all};
ghost use Rattle.number_floats.specs.inner.Bounds.{AtMost};
ghost use Rattle.number_floats.specs.Whole.{floor};
ghost use Rattle.number_floats.specs.Narrow.{narrow};
ghost use Rattle.number_exp_tanh.specs.Exp.{two_to, k_of, r_with};
ghost use Rattle.number_exp_lanes.specs.inner.Near.{inside, NoMinusZero, WholeUpTo, WholeLanes, normal};

use number_exp_tanh::exp::r_of;

fn is_inside(x: f32) -> bool
    ensures { result ≡ inside x }
{
    (-86.0 <= x) & (x <= 88.0)
}

pub(crate) fn all_inside(x: [f32; 16]) -> bool
    ensures { result ≡ all 16 (λ l. inside (get_or x l nan)) }
{
    let mut ok = true;
    for l in 0..16 {
        ok = ok & is_inside(x[l]);
    }
    ok
}

// The largest whole number not above y: 1.5 · 2^52 added and taken off leaves the nearest one, which is at most one too high.
fn near_floor(y: f64) -> f64
    requires { AtMost 200 y × NoMinusZero y }
    ensures { result ≡ floor y }
{
    let t = (y + 6755399441055744.0) - 6755399441055744.0;
    t - (if y < t { 1.0 } else { 0.0 })
}

// k of the rule.
fn near_k(x: f64) -> f64
    requires { AtMost 104 x }
    ensures { result ≡ k_of x }
{
    near_floor(x / f64::from_bits(0x3FE6_2E42_FEFA_39EF) + 0.5)
}

pub(crate) fn k_inside(x: [f32; 16]) -> [f64; 16]
    requires { all 16 (λ l. inside (get_or x l nan)) ≡ true }
    ensures { result ≡ tab 16 (λ l. k_of (get_or x l nan)) }
{
    let mut k = [0.0f64; 16];
    for l in 0..16 {
        k[l] = near_k(x[l] as f64);
    }
    k
}

pub(crate) fn r_inside(x: [f32; 16], k: [f64; 16]) -> [f64; 16]
    requires { all 16 (λ l. inside (get_or x l nan)) ≡ true }
    ensures { result ≡ tab 16 (λ l. r_with (get_or x l nan) (get_or k l nan)) }
{
    let mut r = [0.0f64; 16];
    for l in 0..16 {
        r[l] = r_of(x[l] as f64, k[l]);
    }
    r
}

// 2^k: the low digits of k + 2^52 + 1023 are the exponent's field.
pub(crate) fn power_of(k: f64) -> f64
    requires { WholeUpTo 1000 k }
    ensures { result ≡ two_to k }
{
    f64::from_bits(f64::to_bits(k + 4503599627371519.0) << 52)
}

// p · 2^k in each lane.
pub(crate) fn scaled(p: [f64; 16], k: [f64; 16]) -> [f64; 16]
    requires { WholeLanes k }
    ensures { result ≡ tab 16 (λ l. mul binary64 (get_or p l nan) (two_to (get_or k l nan))) }
{
    let mut v = [0.0f64; 16];
    for l in 0..16 {
        v[l] = p[l] * power_of(k[l]);
    }
    v
}

// v as an f32: 29 digits dropped, to the nearest, a tie to the even one, and the exponent's field counted from the f32's bias.
fn narrow_normal(v: f64) -> f32
    requires { normal v ≡ true }
    ensures { result ≡ narrow v }
{
    let b = f64::to_bits(v);
    f32::from_bits((((b + 0x0FFF_FFFF + ((b >> 29) & 1)) >> 29) - 0x1_C000_0000) as u32)
}

pub(crate) fn narrow_lanes(v: [f64; 16]) -> [f32; 16]
    requires { all 16 (λ l. normal (get_or v l nan)) ≡ true }
    ensures { result ≡ tab 16 (λ l. narrow (get_or v l nan)) }
{
    let mut r = [0.0f32; 16];
    for l in 0..16 {
        r[l] = narrow_normal(v[l]);
    }
    r
}
