// The byte of a sample: spotted in a table of 768 patterns, and then compared by its bits.
#![tactic(auto)]

ghost use Rattle.std.specs.Prelude.{◌≡◌, ◌<◌, cond, eqb, Some, None};
ghost use Rattle.std.specs.Float.Ieee as Ieee;
ghost use Rattle.picture_samples.specs.Samples.{value, entry};
ghost use Rattle.picture_spot.specs.inner.Spot.{guessed, guesses, beyond, halved, guessed_with, spotted, tried, way_of};

use number_floats::pattern::{bits_of_f32, f32_of_bits};
use picture_samples::allowed::value_of;

// How a byte is spotted: by arithmetic, with a slope and a shift for each channel, where that is right for every byte
// of the table; else by halving.
#[derive(Clone, Copy)]
pub enum Way {
    Guess { slope: [f32; 3], shift: [f32; 3] },
    Halve,
}

// The byte that v would have to be the sample of, by arithmetic: adding 2^23 leaves the whole part in the low bits.
pub fn guess(slope: f32, shift: f32, v: f32) -> usize
    ensures { result ≡ guessed slope shift v }
{
    let s = v * slope + shift + 8388608.0;
    (bits_of_f32(s) % 256) as usize
}

// Whether byte b + 1 of channel c lies beyond v, where the channel rises if `up`, and else falls.
fn is_beyond(t: &[u32; 768], c: usize, v: f32, b: usize, up: bool) -> bool
    requires { (c < 3) × (b < 255) × (up ≡ Ieee.lt (value (entry t.now) c 0) (value (entry t.now) c 255)) }
    ensures { result ≡ beyond (entry t.now) c v b }
{
    let x = value_of(t, c, b + 1);
    if up {
        return v < x;
    }
    x < v
}

// Where halving ends: at v's own byte where the channel is allowed and v has one.
fn halve(t: &[u32; 768], c: usize, v: f32) -> usize
    requires { c < 3 }
    ensures { result ≡ halved (entry t.now) c v }
{
    let up = value_of(t, c, 0) < value_of(t, c, 255);
    let mut low = 0usize;
    let mut high = 255usize;
    while low < high {
        let mid = (low + high) / 2;
        if is_beyond(t, c, v, mid, up) {
            high = mid;
        } else {
            low = mid + 1;
        }
    }
    low
}

// Whether every byte of the table is guessed right. All are looked at, so that several are at once.
fn guesses_right(t: &[u32; 768], slope: [f32; 3], shift: [f32; 3]) -> bool
    ensures { result ≡ guesses slope shift t.now }
{
    let mut ok = true;
    for i in 0..768 {
        let c = i / 256;
        let v = f32_of_bits(t[i]);
        ok = ok & (guess(slope[c], shift[c], v) == i % 256);
    }
    ok
}

// The slope is 255 times the deviation and the shift 255 times the mean.
pub fn way_of(t: &[u32; 768], mean: [f32; 3], deviation: [f32; 3]) -> Way
    ensures { result ≡ way_of t.now mean deviation }
{
    let slope = [
        255.0 * deviation[0],
        255.0 * deviation[1],
        255.0 * deviation[2],
    ];
    let shift = [255.0 * mean[0], 255.0 * mean[1], 255.0 * mean[2]];
    if guesses_right(t, slope, shift) {
        Way::Guess { slope, shift }
    } else {
        Way::Halve
    }
}

// The byte that v would have to be the sample of in channel c.
pub fn spot(t: &[u32; 768], w: Way, c: usize, v: f32) -> usize
    ensures { result ≡ spotted w (entry t.now) c v }
{
    if 3 <= c {
        return 0;
    }
    match w {
        Way::Guess { slope, shift } => guess(slope[c], shift[c], v),
        Way::Halve => halve(t, c, v),
    }
}

// The byte k, where its sample in channel c has the pattern b.
fn held_to(t: &[u32; 768], c: usize, k: usize, b: u32) -> Option<u8>
    requires { (c < 3) × (k < 256) }
    ensures { result ≡ cond (eqb (entry t.now c k) b) (Some k) None }
{
    if t[c * 256 + k] == b {
        Some(k as u8)
    } else {
        None
    }
}

// The byte whose sample in channel c has the pattern b.
pub fn byte_of(t: &[u32; 768], w: Way, c: usize, b: u32) -> Option<u8>
    ensures { result ≡ tried (entry t.now) (spotted w (entry t.now)) c b }
{
    if 3 <= c {
        return None;
    }
    let k = spot(t, w, c, f32_of_bits(b));
    held_to(t, c, k, b)
}

// The same, by arithmetic alone, with the channel's slope and shift.
pub fn guess_of(t: &[u32; 768], slope: f32, shift: f32, c: usize, b: u32) -> Option<u8>
    ensures { result ≡ tried (entry t.now) (guessed_with slope shift) c b }
{
    if 3 <= c {
        return None;
    }
    let k = guess(slope, shift, f32_of_bits(b));
    held_to(t, c, k, b)
}
