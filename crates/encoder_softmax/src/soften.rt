// E of each value of a row less m, sixteen side by side while there are as many.
ghost use Rattle.std.specs.Prelude.{◌≡◌, ◌+◌, ◌≤◌, length, get_or};
ghost use Rattle.std.specs.Float.{nan, binary32};
ghost use Rattle.std.specs.Float.Ieee.{sub};
ghost use Rattle.buffers.specs.Region.{region, put};
ghost use Rattle.buffers.specs.Rows.{tab};
ghost use Rattle.encoder_softmax.specs.Softmax.{exp_less};

use number_exp_lanes::lanes::exp_sixteen;
use number_exp_tanh::exp::exp_f32;

// Sixteen values from y on, each less m.
fn sixteen_less(s: &[f32], y: usize, m: f32) -> [f32; 16]
    requires { y + 16 ≤ length s.now }
    ensures { result ≡ tab 16 (λ l. sub binary32 (get_or s.now (y + l) nan) m) }
{
    let mut x = [0.0f32; 16];
    for l in 0..16 {
        x[l] = s[y + l] - m;
    }
    x
}

fn store_sixteen(s: &mut [f32], y: usize, x: [f32; 16])
    requires { y + 16 ≤ length s.old }
    ensures { s.new ≡ put s.old y x }
{
    let e = y + 16;
    s[y..e].copy_from_slice(&x);
}

// Sixteen by sixteen; how many were written.
fn exp_wide(s: &mut [f32], y: usize, n: usize, m: f32) -> usize
    requires { y + n ≤ length s.old }
    ensures { (result ≤ n) × (s.new ≡ put s.old y (exp_less result m (region s.old y n))) }
{
    let turns = n / 16;
    for k in 0..turns {
        let i = k * 16;
        let x = sixteen_less(s, y + i, m);
        store_sixteen(s, y + i, exp_sixteen(x));
    }
    turns * 16
}

// One after another.
fn exp_rest(s: &mut [f32], y: usize, n: usize, m: f32)
    requires { y + n ≤ length s.old }
    ensures { s.new ≡ put s.old y (exp_less n m (region s.old y n)) }
{
    for i in 0..n {
        s[y + i] = exp_f32(s[y + i] - m);
    }
}

pub(crate) fn exp_row(s: &mut [f32], y: usize, n: usize, m: f32)
    requires { y + n ≤ length s.old }
    ensures { s.new ≡ put s.old y (exp_less n m (region s.old y n)) }
{
    let i = exp_wide(s, y, n, m);
    exp_rest(s, y + i, n - i, m);
}
