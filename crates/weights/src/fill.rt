// The weight slice, tensor after tensor.
ghost use Rattle.std.specs.Prelude.{◌≡◌, true, ◌+◌, ◌≤◌, length};
ghost use Rattle.buffers.specs.Region.{region, put};
ghost use Rattle.encoder_settings.specs.Settings.{allowed};
ghost use Rattle.tensor_values.specs.Values.{values_of};
ghost use Rattle.tensor_header.specs.Tensors.{tensors};
ghost use Rattle.weights.specs.inner.Filled.{PutsOne, Fills, FillsAll};

use crate::counts::{count_at, tensor_count};
use crate::entry::{Described, Undescribed, describe};
use buffers::room::inside;
use encoder_settings::EncoderSettings;
use tensor_values::{Kind, size_of, widen};

// The n bytes from a on, or as many of them as there are.
fn part(b: &[u8], a: usize, n: usize) -> &[u8]
    ensures { result.now ≡ region b.now a n }
{
    if b.len() <= a {
        return &b[0..0];
    }
    if b.len() - a <= n {
        return &b[a..];
    }
    let e = a + n;
    &b[a..e]
}

// The values of the bytes at their place; nothing where there is no room for `count` of them.
fn put_values(kind: Kind, bytes: &[u8], out: &mut [u32], at: usize, count: usize)
    ensures { PutsOne kind bytes.now at count out.old out.new }
{
    if inside(out.len(), at, count) {
        let e = at + count;
        widen(kind, bytes, &mut out[at..e]);
    }
}

fn put_tensor(
    d: Result<Described, Undescribed>,
    bytes: &[u8],
    out: &mut [u32],
    at: usize,
    count: usize,
)
    requires { count ≤ 67108864 }
    ensures { Fills d bytes.now at count out.old out.new }
{
    if let Ok(d) = d {
        let own = part(bytes, d.begin as usize, count * size_of(d.kind));
        put_values(d.kind, own, out, at, count);
    }
}

// All tensors, one behind the other.
pub(crate) fn fill(s: EncoderSettings, h: &[u8], bytes: &[u8], places: &[usize], out: &mut [u32])
    requires s_value { allowed s ≡ true }
    requires s_in_bounds { length (tensors s) ≤ length places.now }
    ensures { FillsAll s h.now bytes.now places.now out.old out.new }
{
    let n = tensor_count(s);
    let mut at = 0usize;
    for i in 0..n {
        let count = count_at(s, i);
        let d = describe(h, places[i]);
        put_tensor(d, bytes, out, at, count);
        at += count;
    }
}
