// The test for finite values.
ghost use Rattle.std.specs.Prelude.{◌≡◌};
ghost use Rattle.encoder_kernels.specs.Kernels.{all_finite};

// Whether every value of x is finite.
pub fn finite(x: &[f32]) -> bool
    ensures { result ≡ all_finite x.now }
{
    let inf = 1.0f32 / 0.0;
    let mut ok = true;
    for v in x {
        ok = ok & ((*v < inf) & (-inf < *v));
    }
    ok
}
