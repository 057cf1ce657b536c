// A frame, and the leaf that fills a row of a patch in a channel.
ghost use Rattle.std.specs.Prelude.{◌≡◌, ℕ, ◌+◌, ◌*◌, ◌≤◌, ◌<◌, length, get_or};
ghost use Rattle.buffers.specs.Rows.{tab};
ghost use Rattle.buffers.specs.Region.{put};
ghost use Rattle.picture_samples.specs.Samples.{value, entry};
ghost use Rattle.picture_samples.specs.inner.Clean.{Clean};

// The sides of a picture, of its target and of a patch, and how many patches stand down and across.
#[derive(Clone, Copy)]
pub(crate) struct Frame {
    pub h: usize,
    pub w: usize,
    pub th: usize,
    pub tw: usize,
    pub p: usize,
    pub gh: usize,
    pub gw: usize,
}

// The value of byte b in channel c by the table t.
pub(crate) fn sample_of(t: &[u32; 768], c: usize, b: u8) -> f32
    requires { (c < 3) × Clean t.now }
    ensures { result ≡ value (entry t.now) c b }
{
    f32::from_bits(t[c * 256 + (b as usize)])
}

// n samples of channel c straight from a picture: the bytes from place `from` on, 3 apart.
pub(crate) fn plain_row(
    rgb: &[u8],
    from: usize,
    n: usize,
    c: usize,
    at: usize,
    out: &mut [f32],
    t: &[u32; 768],
)
    requires { ((j : ℕ) → j < n → from + j * 3 < length rgb.now) × (at + n ≤ length out.old) × (c < 3) × Clean t.now }
    ensures { out.new ≡ put out.old at (tab n (λ j. value (entry t.now) c (get_or rgb.now (from + j * 3) 0))) }
{
    for j in 0..n {
        out[at + j] = sample_of(t, c, rgb[from + j * 3]);
    }
}
