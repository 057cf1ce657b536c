// Whether the places that are handed fit. The test forms no number that could wrap.
ghost use Rattle.std.specs.Prelude.{◌≡◌};
ghost use Rattle.encoder_elements.specs.inner.Room.{pair_fits};

use buffers::room::{aside, inside};

pub(crate) fn pair_fits(lens: usize, y: usize, z: usize, n: usize) -> bool
    ensures { result ≡ pair_fits lens y z n }
{
    (inside(lens, y, n) & inside(lens, z, n)) & aside(z, n, y, n)
}
