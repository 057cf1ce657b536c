// A function of each value, and of each value and another's.
ghost use Rattle.std.specs.Prelude.{◌≡◌, ◌+◌, ◌≤◌, length};
ghost use Rattle.std.specs.Float.{nan};
ghost use Rattle.buffers.specs.Region.{region, put};
ghost use Rattle.buffers.specs.Each.{each, both};
ghost use Rattle.encoder_elements.specs.inner.Fits.{PairFits};
ghost use Rattle.encoder_elements.specs.inner.Gives.{Gives, GivesOfTwo};

// f of each of the n floats at y.
pub(crate) fn map_values<F: Fn(f32) -> f32>(s: &mut [f32], y: usize, n: usize, f: F)
    requires fits { y + n ≤ length s.old }
    requires calls { F.IsAlwaysCallable f }
    ensures { (g : _) → Gives (F.post f) g → s.new ≡ put s.old y (each nan n g (region s.old y n)) }
{
    for i in 0..n {
        s[y + i] = f(s[y + i]);
    }
}

// f of each of the n floats at y and its own of those at z.
pub(crate) fn map_pairs<F: Fn(f32, f32) -> f32>(s: &mut [f32], y: usize, z: usize, n: usize, f: F)
    requires fits { PairFits (length s.old) y z n }
    requires calls { F.IsAlwaysCallable f }
    ensures { (g : _) → GivesOfTwo (F.post f) g → s.new ≡ put s.old y (both nan n g (region s.old y n) (region s.old z n)) }
{
    for i in 0..n {
        s[y + i] = f(s[y + i], s[z + i]);
    }
}
