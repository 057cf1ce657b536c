// T, the hyperbolic tangent of the rules.
ghost use Rattle.std.specs.Prelude.{◌≡◌};
ghost use Rattle.number_exp_tanh.specs.Tanh as S;
ghost use Rattle.number_exp_tanh.specs.Tanh.{near_zero, tanh_bits};

// y less its cube / 3 and so on: for small y, where F − 1 would cancel.
fn near_zero(y: f64) -> f64
    ensures { result ≡ near_zero y }
{
    let z = y * y;
    y * (1.0 - z / 3.0 + z * z * 2.0 / 15.0)
}

pub fn tanh_f32(y: f32) -> f32
    ensures { result ≡ S.T y }
{
    if y != y {
        return y;
    }
    if 10.0 <= y {
        return 1.0;
    }
    if y <= -10.0 {
        return -1.0;
    }
    let d = number_floats::narrow::widen_f32(y);
    if (-0.015625 < y) & (y < 0.015625) {
        return number_floats::narrow::narrow_f64(near_zero(d));
    }
    let f = crate::exp::exp_f64(2.0 * d);
    number_floats::narrow::narrow_f64((f - 1.0) / (f + 1.0))
}

pub fn tanh(y: u32) -> u32
    ensures { result ≡ tanh_bits y }
{
    number_floats::pattern::bits_of_f32(tanh_f32(number_floats::pattern::f32_of_bits(y)))
}
