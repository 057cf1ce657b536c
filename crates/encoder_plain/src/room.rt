// Whether what the attention is handed fits. No test forms a number that could wrap.
ghost use Rattle.std.specs.Prelude.{◌≡◌};
ghost use Rattle.encoder_plain.specs.inner.Room as R;

use buffers::room::{aside, inside, rows_inside};
use encoder_attention::places::Places;

pub(crate) fn places_fit(len: usize, p: Places, n: usize, m: usize) -> bool
    ensures { result ≡ R.places_fit len p.q p.k p.v p.row p.out n m }
{
    let held = inside(len, p.k, n) & (inside(len, p.v, n) & inside(len, p.out, n));
    let keys = aside(p.q, n, p.row, m) & aside(p.k, n, p.row, m);
    let values = aside(p.v, n, p.row, m) & aside(p.row, m, p.out, n);
    let sums = (aside(p.q, n, p.out, n) & aside(p.k, n, p.out, n)) & aside(p.v, n, p.out, n);
    held & ((keys & values) & sums)
}

pub(crate) fn plain_fits(len: usize, p: Places) -> bool
    ensures { result ≡ R.plain_fits len p.q p.k p.v p.row p.out p.t p.heads p.hd }
{
    if rows_inside(len, 0, p.heads, p.hd) {
        let dim = p.heads * p.hd;
        if rows_inside(len, p.q, p.t, dim) {
            if rows_inside(len, p.row, p.t, p.t) {
                return places_fit(len, p, p.t * dim, p.t * p.t);
            }
        }
    }
    false
}
