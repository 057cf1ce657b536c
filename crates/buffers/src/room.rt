// Whether what a function is handed fits. No test forms a number that could wrap.
ghost use Rattle.std.specs.Prelude.{◌≡◌, ◌*◌};
ghost use Rattle.buffers.specs.inner.Room as R;

// The n floats at at lie inside len.
pub fn inside(len: usize, at: usize, n: usize) -> bool
    ensures { result ≡ R.inside len at n }
{
    if len < at {
        return false;
    }
    n <= len - at
}

// The n rows of d floats at at lie inside len.
pub fn rows_inside(len: usize, at: usize, n: usize, d: usize) -> bool
    ensures { result ≡ R.inside len at (n * d) }
{
    if len < at {
        return false;
    }
    if d == 0 {
        return true;
    }
    n <= (len - at) / d
}

// The n floats at x and the m at y do not overlap.
pub fn aside(x: usize, n: usize, y: usize, m: usize) -> bool
    ensures { result ≡ R.aside x n y m }
{
    inside(y, x, n) | inside(x, y, m)
}
