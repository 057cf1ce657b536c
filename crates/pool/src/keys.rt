// A key left out of the bookkeeping.
ghost use Rattle.std.specs.Prelude.{◌≡◌, ◌≤◌, ◌<◌, length};
ghost use Rattle.pool_books.specs.Book.{entries, with};
ghost use Rattle.pool_books.specs.inner.Place.{left_out};

use pool_books::Pool;

// All but the held result at place i; those behind it move up by one.
pub(crate) fn leave_out(p: &mut Pool, i: usize)
    requires { (p.old.count ≤ 64) × (i < p.old.count) × (length p.old.held ≡ 64) }
    ensures { p.new ≡ with p.old (left_out i (entries p.old)) }
{
    let last = p.count - 1;
    for j in i..last {
        p.held[j] = p.held[j + 1];
    }
    p.count = last;
}
