// bf16 in storage: the high half of the rounded pattern, and back.
ghost use Rattle.std.specs.Prelude.{◌≡◌, min, length};
ghost use Rattle.number_bf16_half_root.specs.Packed.{packed, widened, packed_all, widened_all};

use crate::bf16::bf16;

pub fn bf16_pack(x: u32) -> u16
    ensures { result ≡ packed x }
{
    (bf16(x) >> 16) as u16
}

pub fn bf16_widen(b: u16) -> u32
    ensures { result ≡ widened b }
{
    (b as u32) << 16
}

// As many as both have; how many those are.
pub fn bf16_pack_all(x: &[u32], out: &mut [u16]) -> usize
    ensures count { result ≡ min (length x.now) (length out.old) }
    ensures output { out.new ≡ packed_all x.now out.old }
{
    let n = x.len().min(out.len());
    for i in 0..n {
        out[i] = bf16_pack(x[i]);
    }
    n
}

pub fn bf16_widen_all(b: &[u16], out: &mut [u32]) -> usize
    ensures count { result ≡ min (length b.now) (length out.old) }
    ensures output { out.new ≡ widened_all b.now out.old }
{
    let n = b.len().min(out.len());
    for i in 0..n {
        out[i] = bf16_widen(b[i]);
    }
    n
}
