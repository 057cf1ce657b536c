// The five number rules on bit patterns, and bf16 in storage, which this crate exports for C.
// No function here has a `requires`, and a NaN pattern gives what the rules say.
#![tactic(auto)]

ghost use Rattle.std.specs.Prelude.{◌≡◌, min, length};
ghost use Rattle.number_bf16_half_root.specs.Bf16 as Bf16;
ghost use Rattle.number_bf16_half_root.specs.Half as Half;
ghost use Rattle.number_bf16_half_root.specs.Root as Root;
ghost use Rattle.number_bf16_half_root.specs.Packed.{packed, widened, packed_all, widened_all};
ghost use Rattle.number_exp_tanh.specs.Exp as Exp;
ghost use Rattle.number_exp_tanh.specs.Tanh as Tanh;

#[unsafe(no_mangle)]
pub extern "C" fn kz_bf16(x: u32) -> u32
    ensures { result ≡ Bf16.bf16 x }
{
    number_bf16_half_root::bf16::bf16(x)
}

#[unsafe(no_mangle)]
pub extern "C" fn kz_half(h: u16) -> u32
    ensures { result ≡ Half.half h }
{
    number_bf16_half_root::half::half_to_f32(h)
}

#[unsafe(no_mangle)]
pub extern "C" fn kz_root(x: u32) -> u32
    ensures { result ≡ Root.root x }
{
    number_bf16_half_root::root::root(x)
}

#[unsafe(no_mangle)]
pub extern "C" fn kz_exp(x: u32) -> u32
    ensures { result ≡ Exp.exp_bits x }
{
    number_exp_tanh::exp::exp(x)
}

#[unsafe(no_mangle)]
pub extern "C" fn kz_tanh(y: u32) -> u32
    ensures { result ≡ Tanh.tanh_bits y }
{
    number_exp_tanh::tanh::tanh(y)
}

#[unsafe(no_mangle)]
pub extern "C" fn kz_bf16_pack(x: u32) -> u16
    ensures { result ≡ packed x }
{
    number_bf16_half_root::packed::bf16_pack(x)
}

#[unsafe(no_mangle)]
pub extern "C" fn kz_bf16_widen(b: u16) -> u32
    ensures { result ≡ widened b }
{
    number_bf16_half_root::packed::bf16_widen(b)
}

#[unsafe(no_mangle)]
pub extern "C" fn kz_bf16_pack_all(x: &[u32], out: &mut [u16]) -> usize
    ensures count { result ≡ min (length x.now) (length out.old) }
    ensures output { out.new ≡ packed_all x.now out.old }
{
    number_bf16_half_root::packed::bf16_pack_all(x, out)
}

#[unsafe(no_mangle)]
pub extern "C" fn kz_bf16_widen_all(b: &[u16], out: &mut [u32]) -> usize
    ensures count { result ≡ min (length b.now) (length out.old) }
    ensures output { out.new ≡ widened_all b.now out.old }
{
    number_bf16_half_root::packed::bf16_widen_all(b, out)
}

// 0.7.0, as `kz_version` of the other archive says it: both may be linked into one program.
#[unsafe(no_mangle)]
pub extern "C" fn kz_number_version() -> u32
    ensures { result ≡ 700 }
{
    700
}
