// Patterns of damaged patches back to the picture: a sample that has no byte becomes byte 0, and is listed.
#![tactic(auto)]

ghost use Rattle.std.specs.Prelude.{◌≡◌, true, [], ◌∷◌, ◌+◌, ◌*◌, ◌/◌, ◌%◌, ◌≤◌, ◌<◌, ℕ, length, get_or, Ok, Option};
ghost use Rattle.buffers.specs.Rows.{tab, count};
ghost use Rattle.buffers.specs.Region.{put};
ghost use Rattle.picture_limits.specs.Shape.{shaped};
ghost use Rattle.picture_samples.specs.Samples.{sample_table, channels_allowed, value, entry};
ghost use Rattle.picture_salvage.specs.Salvage.{saved, salvaged, saved_out, list_out};
ghost use Rattle.picture_spot.specs.inner.Spot.{spotted, or_none, Spots};
ghost use Rattle.picture_salvage.specs.inner.Loops.{found_run, none_at, bad_run, entries_by, all_entries, saved_pixel, saved_pixels, saved_run, saved_line, saved_rows};

use picture_limits::settings::shape;
use picture_limits::{PictureSettings, Refusal};
use picture_samples::allowed::{channels_tested, settings_tested};
use picture_samples::samples;
use picture_spot::{Way, byte_of, guess_of, way_of};

// The sides of a salvaged picture, and how many samples had no byte.
#[derive(Clone, Copy, Debug, PartialEq, Eq)]
pub struct Salvaged {
    pub height: usize,
    pub width: usize,
    pub bad: usize,
}

// A byte, and 256 where there is none: sixteen bits of each, so that several are counted at once.
fn or_none(b: Option<u8>) -> u16
    ensures { result ≡ or_none b }
{
    b.map_or(256, u16::from)
}

// Writes over the front of `found` what f finds of each of the n patterns from `at` on.
fn find_each<F: Fn(u32) -> Option<u8>>(bits: &[u32], at: usize, n: usize, found: &mut [u16], f: F)
    requires room { (at + n ≤ length bits.now) × (n ≤ length found.old) }
    requires callable { F.IsAlwaysCallable f }
    ensures { (g : ℕ → ℕ) → ((b : ℕ) (r : Option ℕ) → F.post f b r → or_none r ≡ g b) → found.new ≡ put found.old 0 (tab n (λ k. g (get_or bits.now (at + k) 0))) }
{
    for k in 0..n {
        found[k] = or_none(f(bits[at + k]));
    }
}

// Writes over the front of `found`, of each of the n samples from `at` on, the byte in channel c. How bytes are spotted is
// asked once for all of them.
fn find_run(bits: &[u32], at: usize, n: usize, c: usize, found: &mut [u16], t: &[u32; 768], w: Way)
    requires { (c < 3) × (at + n ≤ length bits.now) × (n ≤ length found.old) × Spots t.now (spotted w (entry t.now)) }
    ensures { found.new ≡ put found.old 0 (found_run (entry t.now) bits.now at c n) }
{
    match w {
        Way::Guess { slope, shift } => {
            let own_slope = slope[c];
            let own_shift = shift[c];
            find_each(
                bits,
                at,
                n,
                found,
                |b| guess_of(t, own_slope, own_shift, c, b),
            );
        }
        Way::Halve => find_each(bits, at, n, found, |b| byte_of(t, w, c, b)),
    }
}

// At how many of the first n places no byte was found.
fn count_none(found: &[u16], n: usize) -> usize
    requires { n ≤ length found.now }
    ensures { result ≡ count n (none_at found.now) }
{
    let mut bad = 0usize;
    for k in 0..n {
        bad += (256 <= found[k]) as usize;
    }
    bad
}

// How many samples of m runs of p² have no byte; run r is of channel r mod 3.
fn count_runs(bits: &[u32], p: usize, m: usize, t: &[u32; 768], w: Way) -> usize
    requires { (p ≤ 32) × (m * (p * p) ≤ length bits.now) × Spots t.now (spotted w (entry t.now)) }
    ensures { result ≡ bad_run (entry t.now) p bits.now m }
{
    let n = p * p;
    let mut found = [0u16; 1024];
    let mut bad = 0usize;
    let mut o = 0usize;
    for r in 0..m {
        find_run(bits, o, n, r % 3, &mut found, t, w);
        bad += count_none(&found, n);
        o += n;
    }
    bad
}

// Lists one sample: its patch, its place there and its pattern.
fn list_one(list: &mut [u32], at: usize, q: usize, d: usize, b: u32)
    requires { (at + 3 ≤ length list.old) × (q < 4294967296) × (d < 4294967296) }
    ensures { list.new ≡ put list.old at (q ∷ d ∷ b ∷ []) }
{
    list[at] = q as u32;
    list[at + 1] = d as u32;
    list[at + 2] = b;
}

// Lists, from o on, those of the n samples from `at` on of which no byte was found; they are of patch q, and the first has
// place d there. The answer is where the next entry goes.
fn list_run(
    bits: &[u32],
    at: usize,
    n: usize,
    q: usize,
    d: usize,
    found: &[u16],
    list: &mut [u32],
    o: usize,
) -> usize
    requires { (at + n ≤ length bits.now) × (n ≤ length found.now) × (q < 4294967296) × (d + n ≤ 4294967296) × (o + count n (none_at found.now) * 3 ≤ length list.old) }
    ensures answer { result ≡ o + count n (none_at found.now) * 3 }
    ensures output { list.new ≡ put list.old o (entries_by (none_at found.now) bits.now at q d n) }
{
    let mut e = o;
    for k in 0..n {
        if 256 <= found[k] {
            list_one(list, e, q, d + k, bits[at + k]);
            e += 3;
        }
    }
    e
}

// Lists those of m runs of p² samples that have no byte, from the front of the list on.
fn list_runs(bits: &[u32], p: usize, m: usize, list: &mut [u32], t: &[u32; 768], w: Way)
    requires { (p ≤ 32) × (m ≤ 12582912) × (m * (p * p) ≤ length bits.now) × (bad_run (entry t.now) p bits.now m * 3 ≤ length list.old) × Spots t.now (spotted w (entry t.now)) }
    ensures { list.new ≡ put list.old 0 (all_entries (entry t.now) p bits.now m) }
{
    let n = p * p;
    let mut found = [0u16; 1024];
    let mut e = 0usize;
    for r in 0..m {
        let c = r % 3;
        find_run(bits, r * n, n, c, &mut found, t, w);
        e = list_run(bits, r * n, n, r / 3, c * n, &found, list, e);
    }
}

// The same where it is known how many there are: of none, nothing is looked for.
fn list_bad(bits: &[u32], p: usize, m: usize, bad: usize, list: &mut [u32], t: &[u32; 768], w: Way)
    requires { (p ≤ 32) × (m ≤ 12582912) × (m * (p * p) ≤ length bits.now) × (bad ≡ bad_run (entry t.now) p bits.now m) × (bad * 3 ≤ length list.old) × Spots t.now (spotted w (entry t.now)) }
    ensures { list.new ≡ put list.old 0 (all_entries (entry t.now) p bits.now m) }
{
    if bad == 0 {
        return;
    }
    list_runs(bits, p, m, list, t, w);
}

fn saved_byte(b: u16) -> u8
    ensures { result ≡ saved b }
{
    u8::try_from(b).unwrap_or(0)
}

// The three bytes of a pixel.
fn save_pixel(red: u16, green: u16, blue: u16, at: usize, out: &mut [u8])
    requires { at + 3 ≤ length out.old }
    ensures { out.new ≡ put out.old at (saved_pixel red green blue) }
{
    out[at] = saved_byte(red);
    out[at + 1] = saved_byte(green);
    out[at + 2] = saved_byte(blue);
}

// The bytes of n pixels, found channel by channel.
fn save_run(red: &[u16], green: &[u16], blue: &[u16], n: usize, at: usize, out: &mut [u8])
    requires { (n ≤ length red.now) × (n ≤ length green.now) × (n ≤ length blue.now) × (at + n * 3 ≤ length out.old) }
    ensures { out.new ≡ put out.old at (saved_pixels red.now green.now blue.now n) }
{
    let mut o = at;
    for j in 0..n {
        save_pixel(red[j], green[j], blue[j], o, out);
        o += 3;
    }
}

// A row of a patch: p pixels.
fn salvage_run(
    bits: &[u32],
    p: usize,
    from: usize,
    at: usize,
    out: &mut [u8],
    t: &[u32; 768],
    w: Way,
)
    requires { (p ≤ 32) × (from + 2 * (p * p) + p ≤ length bits.now) × (at + p * 3 ≤ length out.old) × Spots t.now (spotted w (entry t.now)) }
    ensures { out.new ≡ put out.old at (saved_run (entry t.now) p bits.now from) }
{
    let n = p * p;
    let mut red = [0u16; 32];
    let mut green = [0u16; 32];
    let mut blue = [0u16; 32];
    find_run(bits, from, p, 0, &mut red, t, w);
    find_run(bits, from + n, p, 1, &mut green, t, w);
    find_run(bits, from + 2 * n, p, 2, &mut blue, t, w);
    save_run(&red, &green, &blue, p, at, out);
}

// Row i of each of the gw patches side by side, the first of which starts at `from`.
fn salvage_line(
    bits: &[u32],
    p: usize,
    gw: usize,
    i: usize,
    from: usize,
    at: usize,
    out: &mut [u8],
    t: &[u32; 768],
    w: Way,
)
    requires { (p ≤ 32) × (i < p) × (from + gw * (3 * (p * p)) ≤ length bits.now) × (at + gw * (p * 3) ≤ length out.old) × Spots t.now (spotted w (entry t.now)) }
    ensures { out.new ≡ put out.old at (saved_line (entry t.now) p gw bits.now from i) }
{
    let m = 3 * (p * p);
    let d = i * p;
    let mut o = at;
    let mut k = from;
    for b in 0..gw {
        salvage_run(bits, p, k + d, o, out, t, w);
        o += p * 3;
        k += m;
    }
}

// All rows, over the front of `out`.
fn salvage_rows(
    bits: &[u32],
    p: usize,
    gh: usize,
    gw: usize,
    out: &mut [u8],
    t: &[u32; 768],
    w: Way,
)
    requires { (0 < p) × (p ≤ 32) × (gh ≤ 2048) × (gw ≤ 2048) × (length bits.now ≡ gh * gw * (3 * (p * p))) × (gh * p * (gw * (p * 3)) ≤ length out.old) × Spots t.now (spotted w (entry t.now)) }
    ensures { out.new ≡ put out.old 0 (saved_rows (entry t.now) p gw bits.now (gh * p)) }
{
    let m = gw * (3 * (p * p));
    let n = gw * (p * 3);
    let tall = gh * p;
    let mut o = 0usize;
    for y in 0..tall {
        salvage_line(bits, p, gw, y % p, y / p * m, o, out, t, w);
        o += n;
    }
}

// What salvage does where settings, channels, grid and length are in order; t is the table of the settings. How many samples
// are bad is known before anything is written.
fn salvage_shaped(
    s: PictureSettings,
    bits: &[u32],
    grid_h: usize,
    grid_w: usize,
    tokens: usize,
    out: &mut [u8],
    list: &mut [u32],
    t: &[u32; 768],
) -> Result<Salvaged, Refusal>
    requires bits_value { shaped s grid_h grid_w (length bits.now) ≡ Ok tokens }
    requires t_value { (t.now ≡ sample_table s.mean s.deviation) × (channels_allowed (value (entry t.now)) ≡ true) }
    ensures answer { result ≡ salvaged s bits.now grid_h grid_w (length out.old) (length list.old) }
    ensures output { out.new ≡ saved_out s bits.now grid_h grid_w (length list.old) out.old }
    ensures entries { list.new ≡ list_out s bits.now grid_h grid_w (length out.old) list.old }
{
    let p = s.patch_size;
    if out.len() < grid_h * p * (grid_w * p) * 3 {
        return Err(Refusal::Output);
    }
    let mean = s.mean;
    let deviation = s.deviation;
    let w = way_of(t, mean, deviation);
    let bad = count_runs(bits, p, 3 * tokens, t, w);
    if list.len() / 3 < bad {
        return Err(Refusal::List);
    }
    list_bad(bits, p, 3 * tokens, bad, list, t, w);
    salvage_rows(bits, p, grid_h, grid_w, out, t, w);
    Ok(Salvaged {
        height: grid_h * p,
        width: grid_w * p,
        bad,
    })
}

// The resized bytes of damaged patches, given as patterns, over the front of `out`, with byte 0 for each sample that has none;
// those over the front of `list`: patch, place in the patch, and the found bits. Nothing is written where they do not fit.
pub fn salvage(
    s: PictureSettings,
    bits: &[u32],
    grid_h: usize,
    grid_w: usize,
    out: &mut [u8],
    list: &mut [u32],
) -> Result<Salvaged, Refusal>
    ensures answer { result ≡ salvaged s bits.now grid_h grid_w (length out.old) (length list.old) }
    ensures output { out.new ≡ saved_out s bits.now grid_h grid_w (length list.old) out.old }
    ensures entries { list.new ≡ list_out s bits.now grid_h grid_w (length out.old) list.old }
{
    settings_tested(s)?;
    let t = samples(s.mean, s.deviation);
    channels_tested(&t)?;
    let tokens = shape(s, grid_h, grid_w, bits.len())?;
    salvage_shaped(s, bits, grid_h, grid_w, tokens, out, list, &t)
}
