// One value after another: the residual, silu, gelu, bf16.
ghost use Rattle.std.specs.Prelude.{◌≡◌, ◌+◌, length};
ghost use Rattle.buffers.specs.Region.{region};
ghost use Rattle.encoder_elements.specs.Element.{silu_of, gelu_of, added, gated, rounded, gelued};
ghost use Rattle.buffers.specs.inner.Room as R;
ghost use Rattle.buffers.specs.inner.Room.{where_fits};
ghost use Rattle.encoder_elements.specs.inner.Room.{pair_fits};

use crate::room::pair_fits;
use crate::silus::gate_values;
use crate::values::{map_pairs, map_values};
use buffers::room::inside;
use number_bf16_half_root::bf16::bf16_f32;
use number_exp_tanh::exp::exp_f32;
use number_exp_tanh::tanh::tanh_f32;

pub(crate) fn silu(x: f32) -> f32
    ensures { result ≡ silu_of x }
{
    x / (1.0 + exp_f32(-x))
}

pub(crate) fn gelu_quick(x: f32) -> f32
    ensures { result ≡ gelu_of x }
{
    0.5 * x * (1.0 + tanh_f32(0.7978845f32 * (x + 0.044715 * x * x * x)))
}

// s[y + i] + s[z + i] at y + i, for each of n.
pub fn add_into(s: &mut [f32], y: usize, z: usize, n: usize)
    ensures { s.new ≡ where_fits (pair_fits (length s.old) y z n) s.old y (added n (region s.old y n) (region s.old z n)) }
{
    if pair_fits(s.len(), y, z, n) {
        map_pairs(s, y, z, n, |a, b| a + b);
    }
}

// silu s[y + i] * s[z + i] at y + i, for each of n.
pub fn gate(s: &mut [f32], y: usize, z: usize, n: usize)
    ensures { s.new ≡ where_fits (pair_fits (length s.old) y z n) s.old y (gated n (region s.old y n) (region s.old z n)) }
{
    if pair_fits(s.len(), y, z, n) {
        gate_values(s, y, z, n);
    }
}

// bf16 of each of the n floats at y.
pub fn truncate_to_bf16_inplace(s: &mut [f32], y: usize, n: usize)
    ensures { s.new ≡ where_fits (R.inside (length s.old) y n) s.old y (rounded n (region s.old y n)) }
{
    if inside(s.len(), y, n) {
        map_values(s, y, n, bf16_f32);
    }
}

// gelu of each of the n floats at y.
pub fn gelu_inplace(s: &mut [f32], y: usize, n: usize)
    ensures { s.new ≡ where_fits (R.inside (length s.old) y n) s.old y (gelued n (region s.old y n)) }
{
    if inside(s.len(), y, n) {
        map_values(s, y, n, gelu_quick);
    }
}
