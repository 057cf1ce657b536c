// silu of each value times another, sixteen side by side while there are as many.
ghost use Rattle.std.specs.Prelude.{◌≡◌, ◌+◌, ◌≤◌, length, get_or};
ghost use Rattle.std.specs.Float.{nan, binary32};
ghost use Rattle.std.specs.Float.Ieee.{add, mul, div, neg};
ghost use Rattle.buffers.specs.Region.{region, put};
ghost use Rattle.number_floats.specs.Constants.{one32};
ghost use Rattle.buffers.specs.Rows.{tab};
ghost use Rattle.encoder_elements.specs.Element.{gated};
ghost use Rattle.encoder_elements.specs.inner.Fits.{PairFits};

use crate::element::silu;
use crate::values::map_pairs;
use number_exp_lanes::lanes::exp_sixteen;

fn sixteen_negated(s: &[f32], y: usize) -> [f32; 16]
    requires { y + 16 ≤ length s.now }
    ensures { result ≡ tab 16 (λ l. neg (get_or s.now (y + l) nan)) }
{
    let mut x = [0.0f32; 16];
    for l in 0..16 {
        x[l] = -s[y + l];
    }
    x
}

// The sixteen at y, by their exponentials e, times those at z.
fn gate_sixteen(s: &mut [f32], y: usize, z: usize, e: [f32; 16])
    requires { PairFits (length s.old) y z 16 }
    ensures { s.new ≡ put s.old y (tab 16 (λ l. mul binary32 (div binary32 (get_or (region s.old y 16) l nan) (add binary32 one32 (get_or e l nan)))
        (get_or (region s.old z 16) l nan))) }
{
    for l in 0..16 {
        s[y + l] = s[y + l] / (1.0 + e[l]) * s[z + l];
    }
}

// Sixteen by sixteen; how many were written.
fn gate_wide(s: &mut [f32], y: usize, z: usize, n: usize) -> usize
    requires { PairFits (length s.old) y z n }
    ensures { (result ≤ n) × (s.new ≡ put s.old y (gated result (region s.old y n) (region s.old z n))) }
{
    let turns = n / 16;
    for k in 0..turns {
        let i = k * 16;
        let x = sixteen_negated(s, y + i);
        gate_sixteen(s, y + i, z + i, exp_sixteen(x));
    }
    turns * 16
}

// One after another.
fn gate_rest(s: &mut [f32], y: usize, z: usize, n: usize)
    requires { PairFits (length s.old) y z n }
    ensures { s.new ≡ put s.old y (gated n (region s.old y n) (region s.old z n)) }
{
    map_pairs(s, y, z, n, |a, b| silu(a) * b);
}

pub(crate) fn gate_values(s: &mut [f32], y: usize, z: usize, n: usize)
    requires { PairFits (length s.old) y z n }
    ensures { s.new ≡ put s.old y (gated n (region s.old y n) (region s.old z n)) }
{
    let i = gate_wide(s, y, z, n);
    gate_rest(s, y + i, z + i, n - i);
}
