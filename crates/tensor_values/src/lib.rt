// The bytes of a tensor, as a safetensors file holds them, to patterns of f32s. A pattern is a u32 and no float, so a NaN keeps
// its bits. No public function here has a `requires`.
#![tactic(auto)]

ghost use Rattle.std.specs.Prelude.{◌≡◌};
ghost use Rattle.buffers.specs.Region.{copied};
ghost use Rattle.tensor_values.specs.Values.{size_of, values_of};

mod half;
mod plain;

use crate::half::widen_f16;
use crate::plain::{widen_bf16, widen_f32};

// The kinds of floats that a file may hold.
#[derive(Clone, Copy, PartialEq, Eq, Debug)]
pub enum Kind {
    F32,
    BF16,
    F16,
}

// The bytes of one value.
pub fn size_of(kind: Kind) -> usize
    ensures { result ≡ size_of kind }
{
    match kind {
        Kind::F32 => 4,
        Kind::BF16 => 2,
        Kind::F16 => 2,
    }
}

// The values of the bytes over the front of out; nothing where out is shorter.
pub fn widen(kind: Kind, bytes: &[u8], out: &mut [u32])
    ensures { out.new ≡ copied (values_of kind bytes.now) out.old }
{
    let n = bytes.len() / size_of(kind);
    if out.len() < n {
        return;
    }
    match kind {
        Kind::F32 => widen_f32(bytes, out),
        Kind::BF16 => widen_bf16(bytes, out),
        Kind::F16 => widen_f16(bytes, out),
    }
}
