// The kinds whose pattern is an f32's, or the high half of one.
ghost use Rattle.std.specs.Prelude.{◌≡◌, [], ◌∷◌, ◌/◌, ◌≤◌, length};
ghost use Rattle.buffers.specs.Region.{put};
ghost use Rattle.tensor_values.specs.declared.Kind.TheVariants.{F32, BF16};
ghost use Rattle.tensor_values.specs.Values.{little, values_of};

use number_bf16_half_root::packed::bf16_widen;

// Four bytes as a pattern.
fn word(a: u8, b: u8, c: u8, d: u8) -> u32
    ensures { result ≡ little (a ∷ b ∷ c ∷ d ∷ []) }
{
    (a as u32) + ((b as u32) << 8) + ((c as u32) << 16) + ((d as u32) << 24)
}

// Two bytes as a pattern.
fn pair(a: u8, b: u8) -> u16
    ensures { result ≡ little (a ∷ b ∷ []) }
{
    (a as u16) + ((b as u16) << 8)
}

pub(crate) fn widen_f32(bytes: &[u8], out: &mut [u32])
    requires { length bytes.now / 4 ≤ length out.old }
    ensures { out.new ≡ put out.old 0 (values_of F32 bytes.now) }
{
    let n = bytes.len() / 4;
    for i in 0..n {
        let k = i * 4;
        out[i] = word(bytes[k], bytes[k + 1], bytes[k + 2], bytes[k + 3]);
    }
}

pub(crate) fn widen_bf16(bytes: &[u8], out: &mut [u32])
    requires { length bytes.now / 2 ≤ length out.old }
    ensures { out.new ≡ put out.old 0 (values_of BF16 bytes.now) }
{
    let n = bytes.len() / 2;
    for i in 0..n {
        let k = i * 2;
        out[i] = bf16_widen(pair(bytes[k], bytes[k + 1]));
    }
}
