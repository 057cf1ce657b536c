// Patches back to a view of a picture: what the loops find known, and what they write.
#![tactic(auto)]

pub mod view;

ghost use Rattle.std.specs.Prelude.{◌≡◌, ℕ, ◌+◌, ◌*◌, ◌≤◌, ◌<◌, length, get_or, Float};
ghost use Rattle.std.specs.Float.{nan};
ghost use Rattle.buffers.specs.Rows.{tab};
ghost use Rattle.buffers.specs.Region.{put, put_rows};
ghost use Rattle.picture_samples.specs.Samples.{entry};
ghost use Rattle.picture_view.specs.inner.Known.{pattern_by, channel_exact, formula_of, exact_run, Exact, known_run, known_patch, known_patches};
ghost use Rattle.picture_view.specs.inner.Rows.{run_by, patch_by, pixels_of, piece_by, line_by, row_by, Piece, Line, Rows};
ghost use Rattle.picture_spot.specs.inner.Spot.{guessed, spotted, Spots};

use number_floats::pattern::bits_of_f32;
use picture_spot::{Way, byte_of, guess, spot};

// The numbers of the formula.
#[derive(Clone, Copy)]
pub(crate) struct Formula {
    pub mean: [f32; 3],
    pub deviation: [f32; 3],
}

// The formula's pattern of byte b.
fn pattern_of(mean: f32, deviation: f32, b: u8) -> u32
    ensures { result ≡ pattern_by mean deviation b }
{
    bits_of_f32((b as f32 / 255.0 - mean) / deviation)
}

// Whether the table has the formula's patterns in channel c. All are looked at, so that several are at once.
fn channel_exact(t: &[u32; 768], c: usize, mean: f32, deviation: f32) -> bool
    requires { c < 3 }
    ensures { result ≡ channel_exact t.now c mean deviation }
{
    let mut ok = true;
    for b in 0..256 {
        ok = ok & (t[c * 256 + b] == pattern_of(mean, deviation, b as u8));
    }
    ok
}

// The formula, where the table has its patterns.
pub(crate) fn formula_of(t: &[u32; 768], mean: [f32; 3], deviation: [f32; 3]) -> Option<Formula>
    ensures { result ≡ formula_of t.now mean deviation }
{
    let exact = channel_exact(t, 0, mean[0], deviation[0])
        & channel_exact(t, 1, mean[1], deviation[1])
        & channel_exact(t, 2, mean[2], deviation[2]);
    if exact {
        Some(Formula { mean, deviation })
    } else {
        None
    }
}

// Whether each of the n samples from `at` on is the formula's of the byte that is guessed of it. All are looked at, so that
// several are at once.
fn run_exact(
    patches: &[f32],
    at: usize,
    n: usize,
    slope: f32,
    shift: f32,
    mean: f32,
    deviation: f32,
) -> bool
    requires { at + n ≤ length patches.now }
    ensures { result ≡ exact_run slope shift mean deviation n patches.now at }
{
    let mut ok = true;
    for k in 0..n {
        let v = patches[at + k];
        let b = guess(slope, shift, v) as u8;
        ok = ok & (pattern_of(mean, deviation, b) == bits_of_f32(v));
    }
    ok
}

// Whether each of the n samples from `at` on has the bits of a byte in channel c. How bytes are spotted is asked once for
// all of them.
fn run_known(
    patches: &[f32],
    at: usize,
    n: usize,
    c: usize,
    t: &[u32; 768],
    w: Way,
    f: Option<Formula>,
) -> bool
    requires { (c < 3) × (at + n ≤ length patches.now) × Spots t.now (spotted w (entry t.now)) × Exact t.now f }
    ensures { result ≡ known_run (entry t.now) n patches.now at c }
{
    if let Way::Guess { slope, shift } = w {
        if let Some(f) = f {
            return run_exact(
                patches,
                at,
                n,
                slope[c],
                shift[c],
                f.mean[c],
                f.deviation[c],
            );
        }
    }
    (0..n).all(|k| byte_of(t, w, c, bits_of_f32(patches[at + k])).is_some())
}

fn patch_known(
    patches: &[f32],
    at: usize,
    p: usize,
    t: &[u32; 768],
    w: Way,
    f: Option<Formula>,
) -> bool
    requires { (p ≤ 32) × (at + 3 * (p * p) ≤ length patches.now) × Spots t.now (spotted w (entry t.now)) × Exact t.now f }
    ensures { result ≡ known_patch (entry t.now) p patches.now at }
{
    let n = p * p;
    (0..3).all(|c| run_known(patches, at + c * n, n, c, t, w, f))
}

// Whether every sample of n patches has the bits of a byte in its channel.
pub(crate) fn all_known(
    patches: &[f32],
    p: usize,
    n: usize,
    t: &[u32; 768],
    w: Way,
    f: Option<Formula>,
) -> bool
    requires { (p ≤ 32) × (n * (3 * (p * p)) ≤ length patches.now) × Spots t.now (spotted w (entry t.now)) × Exact t.now f }
    ensures { result ≡ known_patches (entry t.now) p n patches.now }
{
    let m = 3 * (p * p);
    (0..n).all(|q| patch_known(patches, q * m, p, t, w, f))
}

// The bytes that f spots of each of the n samples from `from` on.
fn fill_bytes<F: Fn(f32) -> usize>(
    patches: &[f32],
    from: usize,
    n: usize,
    at: usize,
    bytes: &mut [u8],
    f: F,
)
    requires room { (from + n ≤ length patches.now) × (at + n ≤ length bytes.old) }
    requires callable { F.IsAlwaysCallable f }
    requires small { (v : Float) (r : ℕ) → F.post f v r → r < 256 }
    ensures { (g : Float → ℕ) → ((v : Float) (r : ℕ) → F.post f v r → r ≡ g v) → bytes.new ≡ put bytes.old at (tab n (λ k. g (get_or patches.now (from + k) nan))) }
{
    for k in 0..n {
        bytes[at + k] = f(patches[from + k]) as u8;
    }
}

// The bytes of the n samples of channel c from `from` on. How bytes are spotted is asked once for all of them.
fn run_bytes(
    patches: &[f32],
    from: usize,
    n: usize,
    c: usize,
    at: usize,
    bytes: &mut [u8],
    t: &[u32; 768],
    w: Way,
)
    requires { (c < 3) × (from + n ≤ length patches.now) × (at + n ≤ length bytes.old) × Spots t.now (spotted w (entry t.now)) }
    ensures { bytes.new ≡ put bytes.old at (run_by (spotted w (entry t.now)) c n patches.now from) }
{
    match w {
        Way::Guess { slope, shift } => {
            let own_slope = slope[c];
            let own_shift = shift[c];
            fill_bytes(
                patches,
                from,
                n,
                at,
                bytes,
                |v| guess(own_slope, own_shift, v),
            );
        }
        Way::Halve => fill_bytes(patches, from, n, at, bytes, |v| spot(t, w, c, v)),
    }
}

// The bytes of the patch from `from` on, which has n samples in each channel, as these lie.
fn patch_bytes(patches: &[f32], from: usize, n: usize, bytes: &mut [u8], t: &[u32; 768], w: Way)
    requires { (n ≤ 1024) × (from + 3 * n ≤ length patches.now) × (3 * n ≤ length bytes.old) × Spots t.now (spotted w (entry t.now)) }
    ensures { bytes.new ≡ put bytes.old 0 (patch_by (spotted w (entry t.now)) n patches.now from) }
{
    let mut o = 0usize;
    for c in 0..3 {
        run_bytes(patches, from + o, n, c, o, bytes, t, w);
        o += n;
    }
}

// n pixels, the first of which has its three bytes m apart from `from` on.
fn copy_run(bytes: &[u8], m: usize, n: usize, from: usize, at: usize, out: &mut [u8])
    requires { ((j : ℕ) → j < n → from + j + 2 * m < length bytes.now) × (at + n * 3 ≤ length out.old) }
    ensures { out.new ≡ put out.old at (pixels_of bytes.now m n from) }
{
    let mut o = at;
    for j in 0..n {
        let k = from + j;
        out[o] = bytes[k];
        out[o + 1] = bytes[k + m];
        out[o + 2] = bytes[k + 2 * m];
        o += 3;
    }
}

// The first `wide` pixels of the first `tall` rows of the patch whose bytes these are, from `at` on, with `stride` from row to
// row.
fn copy_patch(
    bytes: &[u8],
    p: usize,
    tall: usize,
    wide: usize,
    at: usize,
    stride: usize,
    out: &mut [u8],
)
    requires { Piece p tall wide at stride (length out.old) × (3 * (p * p) ≤ length bytes.now) }
    ensures { out.new ≡ put_rows out.old tall (λ i. at + i * stride) (λ i. pixels_of bytes.now (p * p) wide (i * p)) }
{
    let m = p * p;
    for i in 0..tall {
        copy_run(bytes, m, wide, i * p, at + i * stride, out);
    }
}

// The same of the patch from `from` on: its samples are read as they lie and turned to bytes first, of which the rows are then
// taken.
fn restore_patch(
    patches: &[f32],
    p: usize,
    from: usize,
    tall: usize,
    wide: usize,
    at: usize,
    stride: usize,
    out: &mut [u8],
    bytes: &mut [u8],
    t: &[u32; 768],
    w: Way,
)
    requires { Piece p tall wide at stride (length out.old) × (from + 3 * (p * p) ≤ length patches.now) × (3072 ≤ length bytes.old) × Spots t.now (spotted w (entry t.now)) }
    ensures { out.new ≡ put_rows out.old tall (λ i. at + i * stride) (λ i. piece_by (spotted w (entry t.now)) p wide patches.now from i) }
{
    patch_bytes(patches, from, p * p, bytes, t, w);
    copy_patch(bytes, p, tall, wide, at, stride, out);
}

// The first `wide` pixels of the first `tall` rows of the patches side by side from `from` on: of whole patches, and then of a
// part of one.
fn restore_line(
    patches: &[f32],
    p: usize,
    from: usize,
    tall: usize,
    wide: usize,
    at: usize,
    stride: usize,
    out: &mut [u8],
    t: &[u32; 768],
    w: Way,
)
    requires { Line p from tall wide at stride (length patches.now) (length out.old) × Spots t.now (spotted w (entry t.now)) }
    ensures { out.new ≡ put_rows out.old tall (λ i. at + i * stride) (λ i. line_by (spotted w (entry t.now)) p wide patches.now from i) }
{
    let mut bytes = [0u8; 3072];
    let m = 3 * (p * p);
    let mut b = 0usize;
    let mut x = 0usize;
    while x < wide {
        let n = p.min(wide - x);
        restore_patch(
            patches,
            p,
            from + b * m,
            tall,
            n,
            at + x * 3,
            stride,
            out,
            &mut bytes,
            t,
            w,
        );
        x += n;
        b += 1;
    }
}

// The first `wide` pixels of the first `tall` rows of the picture, from `at` on, with `stride` from row to row: of whole lines
// of patches, gw side by side, and then of a part of one.
pub(crate) fn restore_rows(
    patches: &[f32],
    p: usize,
    gw: usize,
    tall: usize,
    wide: usize,
    at: usize,
    stride: usize,
    out: &mut [u8],
    t: &[u32; 768],
    w: Way,
)
    requires { Rows p gw tall wide at stride (length patches.now) (length out.old) × Spots t.now (spotted w (entry t.now)) }
    ensures { out.new ≡ put_rows out.old tall (λ y. at + y * stride) (λ y. row_by (spotted w (entry t.now)) p gw wide patches.now y) }
{
    let m = gw * (3 * (p * p));
    let mut a = 0usize;
    let mut y = 0usize;
    while y < tall {
        let n = p.min(tall - y);
        restore_line(
            patches,
            p,
            a * m,
            n,
            wide,
            at + y * stride,
            stride,
            out,
            t,
            w,
        );
        y += n;
        a += 1;
    }
}
