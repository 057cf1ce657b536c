// The nearest f32 to the square root of an f32.
ghost use Rattle.std.specs.Prelude.{◌≡◌, ◌+◌, ◌*◌, ◌^◌, ◌<◌, ◌≤◌};
ghost use Rattle.number_bf16_half_root.specs.Root as S;
ghost use Rattle.number_bf16_half_root.specs.Root.{NearRoot, Rooted};

// The whole root of a v of 47 or 48 digits, by halving.
fn whole_root(v: u64) -> u64
    requires { (2 ^ 46 ≤ v) × (v < 2 ^ 48) }
    ensures { (2 ^ 23 ≤ result) × (result < 2 ^ 24) × (result * result ≤ v) × (v < (result + 1) * (result + 1)) }
{
    let mut lo: u64 = 0x80_0000;
    let mut hi: u64 = 0x100_0000;
    while lo + 1 < hi {
        let mid = (lo + hi) / 2;
        if mid * mid <= v {
            lo = mid;
        } else {
            hi = mid;
        }
    }
    lo
}

// The rounded root: a whole v lies on no middle (n + 1/2)².
fn near_root(v: u64) -> u64
    requires { (2 ^ 46 ≤ v) × (v < 2 ^ 48) }
    ensures { (2 ^ 23 ≤ result) × (result ≤ 2 ^ 24) × NearRoot v result }
{
    let n = whole_root(v);
    if n < v - n * n { n + 1 } else { n }
}

// The pattern of the root of the pattern x, of a number above zero.
fn root_number(x: u32) -> u32
    requires { (0 < x) × (x < 0x7F80_0000) }
    ensures { Rooted x result }
{
    let e = (x >> 23) as u64;
    let t = (x & 0x7F_FFFF) as u64;
    // x's size in units of 2^-149, times 2^24, is m * 2^k
    let mut m = t;
    let mut k: u64 = 24;
    if 0 < e {
        m = t + 0x80_0000;
        k = 23 + e;
    }
    while m < 0x80_0000 {
        m = m * 2;
        k = k - 1;
    }
    let n = near_root(m << (23 + (k & 1)));
    (((51 + (k >> 1)) << 23) + n) as u32
}

pub fn root(x: u32) -> u32
    ensures { result ≡ S.root x }
{
    if x == 0 {
        return x;
    }
    if x < 0x7F80_0000 {
        return root_number(x);
    }
    if x == 0x7F80_0000 {
        return x;
    }
    if x == 0x8000_0000 {
        return x;
    }
    0x7FC0_0000
}

pub fn root_f32(x: f32) -> f32
    ensures { result ≡ S.root_of x }
{
    number_floats::pattern::f32_of_bits(root(number_floats::pattern::bits_of_f32(x)))
}
