// The floats: moved down, and written.
ghost use Rattle.std.specs.Prelude.{◌≡◌, true, [], ◌∷◌, ◌++◌, ◌+◌, ◌≤◌, ◌<◌, length};
ghost use Rattle.buffers.specs.Region.{region, put};
ghost use Rattle.pool_books.specs.Book as B;
ghost use Rattle.pool_books.specs.Book.{entries, with, well_made, laid, joined};

use buffers::copy;
use pool_books::{Held, Pool};

// The n floats at `from` to the lower place `to`, the lowest first: the two may overlap.
fn move_down(s: &mut [f32], from: usize, to: usize, n: usize)
    requires { (to ≤ from) × (from + n ≤ length s.old) }
    ensures { s.new ≡ put s.old to (region s.old from n) }
{
    for i in 0..n {
        s[to + i] = s[from + i];
    }
}

// The held results one right behind the other, from the front of the slice on.
pub(crate) fn slide(p: &mut Pool, s: &mut [f32])
    requires { (well_made p.old (length s.old) ≡ true) × (length p.old.held ≡ 64) }
    ensures answer { p.new ≡ with p.old (laid 0 (entries p.old)) }
    ensures output { s.new ≡ put s.old 0 (joined s.old (entries p.old)) }
{
    let mut to = 0usize;
    for i in 0..p.count {
        let h = p.held[i];
        move_down(s, h.start, to, h.len);
        p.held[i] = Held {
            key: h.key,
            start: to,
            len: h.len,
        };
        to += h.len;
    }
}

// The vectors at `at`, and their key behind the held ones.
pub(crate) fn store(p: &mut Pool, s: &mut [f32], at: usize, key: u64, vectors: &[f32])
    requires { (p.old.count < 64) × (at + length vectors.now ≤ length s.old) }
    ensures answer { p.new ≡ with p.old (entries p.old ++ (B.held key at (length vectors.now) ∷ [])) }
    ensures output { s.new ≡ put s.old at vectors.now }
{
    let n = vectors.len();
    let e = at + n;
    copy(vectors, &mut s[at..e]);
    let count = p.count;
    p.held[count] = Held {
        key,
        start: at,
        len: n,
    };
    p.count = count + 1;
}
