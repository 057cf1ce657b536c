// E of sixteen values side by side. The operations of a lane are the rule's, in its order, and no two lanes touch: so the
// bits are those of each value alone, while the divisions of sixteen series run beside each other.
ghost use Rattle.std.specs.Prelude.{◌≡◌, get_or};
ghost use Rattle.std.specs.Float.{nan};
ghost use Rattle.buffers.specs.Rows.{tab};
ghost use Rattle.number_exp_tanh.specs.Exp.{term, series, k_of, r_with, r_of, E};
ghost use Rattle.number_floats.specs.Constants.{one64};
ghost use Rattle.number_exp_tanh.specs.inner.Between.{between};

use crate::straight::{all_inside, k_inside, narrow_lanes, power_of, r_inside, scaled};
use number_exp_tanh::exp::{exp_f32, k_of, r_of};

fn is_between(x: f32) -> bool
    ensures { result ≡ between x }
{
    !(x != x) & (!(89.0 <= x) & !(x <= -104.0))
}

// E of x by its k and series; beyond the ends, and of a NaN, both are without use.
fn end_of(x: f32, k: f64, p: f64) -> f32
    requires { (k ≡ k_of x) × (p ≡ series (r_of x) 10 one64) }
    ensures { result ≡ E x }
{
    if is_between(x) {
        return number_floats::narrow::narrow_f64(p * power_of(k));
    }
    exp_f32(x)
}

fn k_lanes(x: [f32; 16]) -> [f64; 16]
    ensures { result ≡ tab 16 (λ l. k_of (get_or x l nan)) }
{
    let mut k = [0.0f64; 16];
    for l in 0..16 {
        k[l] = k_of(number_floats::narrow::widen_f32(x[l]));
    }
    k
}

fn r_lanes(x: [f32; 16], k: [f64; 16]) -> [f64; 16]
    ensures { result ≡ tab 16 (λ l. r_with (get_or x l nan) (get_or k l nan)) }
{
    let mut r = [0.0f64; 16];
    for l in 0..16 {
        r[l] = r_of(number_floats::narrow::widen_f32(x[l]), k[l]);
    }
    r
}

// One term more in each lane.
fn add_term(p: [f64; 16], r: [f64; 16], n: f64) -> [f64; 16]
    ensures { result ≡ tab 16 (λ l. term (get_or r l nan) (get_or p l nan) n) }
{
    let mut q = p;
    for l in 0..16 {
        q[l] = 1.0 + (r[l] * q[l]) / n;
    }
    q
}

fn series_lanes(r: [f64; 16]) -> [f64; 16]
    ensures { result ≡ tab 16 (λ l. series (get_or r l nan) 10 one64) }
{
    let mut p = [1.0f64; 16];
    for i in (1u32..11).rev() {
        let next = add_term(p, r, f64::from(i));
        p = next;
    }
    p
}

fn end_lanes(x: [f32; 16], k: [f64; 16], p: [f64; 16]) -> [f32; 16]
    requires { (k ≡ tab 16 (λ l. k_of (get_or x l nan))) × (p ≡ tab 16 (λ l. series (r_of (get_or x l nan)) 10 one64)) }
    ensures { result ≡ tab 16 (λ l. E (get_or x l nan)) }
{
    let mut r = [0.0f32; 16];
    for l in 0..16 {
        r[l] = end_of(x[l], k[l], p[l]);
    }
    r
}

// E of each, whatever they are.
fn exp_any(x: [f32; 16]) -> [f32; 16]
    ensures { result ≡ tab 16 (λ l. E (get_or x l nan)) }
{
    let k = k_lanes(x);
    let p = series_lanes(r_lanes(x, k));
    end_lanes(x, k, p)
}

// E of each; without a branch where all are from -86 to 88, as scores less their largest mostly are.
pub fn exp_sixteen(x: [f32; 16]) -> [f32; 16]
    ensures { result ≡ tab 16 (λ l. E (get_or x l nan)) }
{
    if all_inside(x) {
        let k = k_inside(x);
        return narrow_lanes(scaled(series_lanes(r_inside(x, k)), k));
    }
    exp_any(x)
}
