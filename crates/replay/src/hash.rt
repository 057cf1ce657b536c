// A hash of 64 bits: two remainders, each of a power sum of the words.
ghost use Rattle.std.specs.Prelude.{◌≡◌, ℕ, ◌<◌};
ghost use Rattle.replay.specs.Hash.{added, start, summed, lanes, byte_hash, word_hash, float_hash};
ghost use Rattle.replay.specs.inner.Reduced.{Reduced};

use number_floats::pattern::bits_of_f32;

#[derive(Drop)]
pub(crate) struct Lanes {
    pub first: u64,
    pub second: u64,
}

fn add(h: Lanes, x: u64) -> Lanes
    requires { Reduced h × (x < 4294967296) }
    ensures { (result ≡ added h x) × Reduced result }
{
    Lanes {
        first: (h.first * 2147483629 + x) % 4294967291,
        second: (h.second * 2147483587 + x) % 4294967279,
    }
}

fn sum(h: Lanes) -> u64
    requires { Reduced h }
    ensures { result ≡ summed h }
{
    h.first * 4294967296 + h.second
}

// Each value counts by its word.
fn hash<T: Copy, F: Fn(T) -> u32>(s: &[T], word: F) -> u64
    requires { F.IsAlwaysCallable word }
    ensures { (f : T → ℕ) → ((x : T) (r : ℕ) → F.post word x r → r ≡ f x) → result ≡ summed (lanes f start s.now) }
{
    let mut h = Lanes {
        first: 1,
        second: 1,
    };
    for x in s {
        h = add(h, u64::from(word(*x)));
    }
    sum(h)
}

pub fn hash_bytes(s: &[u8]) -> u64
    ensures { result ≡ byte_hash s.now }
{
    hash(s, |b| u32::from(b))
}

pub fn hash_words(s: &[u32]) -> u64
    ensures { result ≡ word_hash s.now }
{
    hash(s, |w| w)
}

// A float counts by its bits.
pub fn hash_floats(s: &[f32]) -> u64
    ensures { result ≡ float_hash s.now }
{
    hash(s, bits_of_f32)
}
