// The generator of bytes, words and floats.
ghost use Rattle.std.specs.Prelude.{◌≡◌, ℕ, suc, ◌<◌, length};
ghost use Rattle.buffers.specs.Rows.{tab};
ghost use Rattle.replay.specs.Marks.{next, seeded, stepped, unit_of, bytes, words, floats, units};

use std::num::nearest_u32_to_f32;

// The seed of the marks that outputs start with.
pub const MARKS: usize = 77;

fn step(x: usize) -> usize
    requires { x < 4294967296 }
    ensures { (result ≡ next x) × (result < 4294967296) }
{
    (x * 1664525 + 1013904223) % 4294967296
}

// Each value is made of the state after one step more.
fn fill<T: Copy, F: Fn(usize) -> T>(seed: usize, to: &mut [T], make: F)
    requires { (x : ℕ) → x < 4294967296 → F.pre make x }
    ensures { (f : ℕ → T) → ((x : ℕ) (r : T) → x < 4294967296 → F.post make x r → r ≡ f x) → to.new ≡ tab (length to.old) (λ k. f (stepped (seeded seed) (suc k))) }
{
    let mut x = seed % 4294967296;
    for cell in to.iter_mut() {
        x = step(x);
        *cell = make(x);
    }
}

pub fn fill_bytes(seed: usize, to: &mut [u8])
    ensures { to.new ≡ bytes (seeded seed) (length to.old) }
{
    fill(seed, to, |x| (x / 16777216) as u8);
}

pub fn fill_words(seed: usize, to: &mut [u32])
    ensures { to.new ≡ words (seeded seed) (length to.old) }
{
    fill(seed, to, |x| x as u32);
}

pub fn fill_floats(seed: usize, to: &mut [f32])
    ensures { to.new ≡ floats (seeded seed) (length to.old) }
{
    fill(seed, to, |x| nearest_u32_to_f32(x as u32));
}

// The upper 24 of 32 bits as a number from -1 to 1: each operation is exact.
fn unit(x: usize) -> f32
    requires { x < 4294967296 }
    ensures { result ≡ unit_of x }
{
    nearest_u32_to_f32((x / 256) as u32) / 8388608.0 - 1.0
}

pub fn fill_units(seed: usize, to: &mut [f32])
    ensures { to.new ≡ units (seeded seed) (length to.old) }
{
    fill(seed, to, unit);
}
