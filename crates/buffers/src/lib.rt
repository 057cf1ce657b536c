// Lent buffers. What stands at a place and what is written over it is said in specs/, with its laws
// in proofs/; here are the functions that the crates above share.
#![tactic(auto)]

ghost use Rattle.std.specs.Prelude.{◌≡◌, length};
ghost use Rattle.buffers.specs.Rows.{tab};
ghost use Rattle.buffers.specs.Region.{region, copied, cleared};
ghost use Rattle.number_floats.specs.Constants.{zero32};
ghost use Rattle.buffers.specs.inner.Room as R;

pub mod room;

use crate::room::inside;

// All of s becomes +0.
pub fn clear(s: &mut [f32])
    ensures { s.new ≡ cleared s.old }
{
    s.fill(0.0);
}

// The n floats of s at at become +0; nothing where they do not lie inside.
pub fn clear_at(s: &mut [f32], at: usize, n: usize)
    ensures { s.new ≡ R.where_fits (R.inside (length s.old) at n) s.old at (tab n (λ _. zero32)) }
{
    if inside(s.len(), at, n) {
        let e = at + n;
        clear(&mut s[at..e]);
    }
}

// x over the front of out; nothing where out is shorter.
pub fn copy(x: &[f32], out: &mut [f32])
    ensures { out.new ≡ copied x.now out.old }
{
    if x.len() <= out.len() {
        // By index: the library's copy would have the archives ask for `memmove`.
        for i in 0..x.len() {
            out[i] = x[i];
        }
    }
}

// The n elements of s from a on, or as many of them as s has.
pub fn part(s: &[f32], a: usize, n: usize) -> &[f32]
    ensures { result.now ≡ region s.now a n }
{
    if s.len() <= a {
        return &s[0..0];
    }
    if s.len() - a <= n {
        return &s[a..];
    }
    let e = a + n;
    &s[a..e]
}
