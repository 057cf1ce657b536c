// Halves. Their rule has cases; it is worked out here so that several values run side by side, and none takes a way of its own.
ghost use Rattle.std.specs.Prelude.{◌≡◌, cond, ◌*◌, ◌/◌, ◌%◌, ◌^◌, ◌≤◌, ◌<◌, ltb, length};
ghost use Rattle.buffers.specs.Region.{put};
ghost use Rattle.buffers.specs.Each.{each};
ghost use Rattle.number_bf16_half_root.specs.Half.{half_size, half};
ghost use Rattle.tensor_values.specs.declared.Kind.TheVariants.{F16};
ghost use Rattle.tensor_values.specs.Values.{values_of};

use crate::plain::widen_bf16;

// By how much more the exponent's field of a half grows where it is 31, that of infinities and NaNs.
fn more_of(size: u32) -> u32
    ensures { result ≡ cond (ltb size 0xF80_0000) 0 0x3800_0000 }
{
    if size < 0xF80_0000 { 0 } else { 0x3800_0000 }
}

// The bits below a half's sign, the last of them at bit 13, as an f32's. The digits of a subnormal, put behind the leading one
// of 2^-14, from which 2^-14 is taken off, are the number: no digit is lost, and no f32 on the way is subnormal.
fn widen_size(size: u32) -> u32
    requires { (size % 2 ^ 13 ≡ 0) × (size < 2 ^ 28) }
    ensures { result ≡ half_size (size / 2 ^ 23) (size / 2 ^ 13 % 2 ^ 10) }
{
    if size < 0x80_0000 {
        return f32::to_bits(f32::from_bits(0x3880_0000 + size) - f32::from_bits(0x3880_0000));
    }
    0x3800_0000 + size + more_of(size)
}

// The f32 of the half in the high half of w.
fn widen_half(w: u32) -> u32
    ensures { result ≡ half (w / 2 ^ 16) }
{
    ((w >> 31) << 31) + widen_size((w & 0x7FFF_0000) >> 3)
}

// Halves that stand in the high half of each element, in place.
fn widen_halves(out: &mut [u32])
    ensures { out.new ≡ each 0 (length out.old) (λ w. half (w / 2 ^ 16)) out.old }
{
    for i in 0..out.len() {
        out[i] = widen_half(out[i]);
    }
}

// A run of halves. Their bytes are read as BF16s, a loop that LLVM turns into loads of whole values.
fn widen_run(bytes: &[u8], out: &mut [u32])
    requires { length bytes.now ≡ length out.old * 2 }
    ensures { out.new ≡ values_of F16 bytes.now }
{
    widen_bf16(bytes, out);
    widen_halves(out);
}

// How many of those that are left make the next run: 4 KiB of patterns at most.
fn run_of(left: usize) -> usize
    requires { 0 < left }
    ensures { (0 < result) × (result ≤ left) }
{
    if left < 1024 { left } else { 1024 }
}

// Run by run, so that the second look at a run finds it in the cache.
pub(crate) fn widen_f16(bytes: &[u8], out: &mut [u32])
    requires { length bytes.now / 2 ≤ length out.old }
    ensures { out.new ≡ put out.old 0 (values_of F16 bytes.now) }
{
    let n = bytes.len() / 2;
    let mut i = 0usize;
    while i < n {
        let e = i + run_of(n - i);
        let k = i * 2;
        let l = e * 2;
        widen_run(&bytes[k..l], &mut out[i..e]);
        i = e;
    }
}
