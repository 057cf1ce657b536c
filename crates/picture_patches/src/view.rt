// A row of a patch, straight from a view of a picture.
ghost use Rattle.std.specs.Prelude.{◌≡◌, ◌+◌, ◌≤◌, ◌<◌, length};
ghost use Rattle.buffers.specs.Rows.{tab};
ghost use Rattle.buffers.specs.Region.{put};
ghost use Rattle.picture_samples.specs.Samples.{value, entry};
ghost use Rattle.picture_samples.specs.inner.Clean.{Clean};
ghost use Rattle.picture_patches.specs.Patches.{patch_row};
ghost use Rattle.picture_patches.specs.inner.Frame.{Framed, Inside, own, viewed};

use crate::rows::{Frame, plain_row, sample_of};
use picture_limits::View;

// How many of the p columns from column x on are the view's, in row r.
fn own_columns(v: View, p: usize, r: usize, x: usize) -> usize
    ensures { result ≡ own v p r x }
{
    if v.height <= r {
        return 0;
    }
    p.min(v.width.saturating_sub(x))
}

// n samples of byte 0 in channel c.
fn zero_row(n: usize, c: usize, at: usize, out: &mut [f32], t: &[u32; 768])
    requires { (at + n ≤ length out.old) × (c < 3) × Clean t.now }
    ensures { out.new ≡ put out.old at (tab n (λ _. value (entry t.now) c 0)) }
{
    let end = at + n;
    out[at..end].fill(sample_of(t, c, 0));
}

// The samples of channel c at row r from column x on, of a view: its own, and behind them those of byte 0.
pub(crate) fn view_row(
    rgb: &[u8],
    f: Frame,
    v: View,
    r: usize,
    x: usize,
    c: usize,
    at: usize,
    out: &mut [f32],
    t: &[u32; 768],
)
    requires { Framed f (length rgb.now) × Clean t.now × Inside f v × (r < f.th) × (x + f.p ≤ f.tw) × (c < 3) × (at + f.p ≤ length out.old) }
    ensures { out.new ≡ put out.old at (patch_row f.p (viewed (entry t.now) f v rgb.now) r x c) }
{
    let p = f.p;
    let from = ((v.top + r) * f.w + (v.left + x)) * 3 + c;
    let n = own_columns(v, p, r, x);
    plain_row(rgb, from, n, c, at, out, t);
    zero_row(p - n, c, at + n, out, t);
}
