// Whether the channels of a table are allowed: 256 finite values, strictly rising or strictly falling; and the tests of a call,
// with its table.
ghost use Rattle.std.specs.Prelude.{◌≡◌, ◌+◌, ◌<◌};
ghost use Rattle.std.specs.Float.Ieee.Scale.{finite};
ghost use Rattle.buffers.specs.Rows.{all};
ghost use Rattle.picture_samples.specs.Samples.{value, entry, rising, falling, channel_allowed, channels_allowed, allowed_table, settings_tested, channels_tested};

use crate::samples;
use number_floats::pattern::f32_of_bits;
use picture_limits::settings::settings_allowed;
use picture_limits::{PictureSettings, Refusal};

// The sample of byte b in channel c; past the table's end the pattern is 0.
pub fn value_of(t: &[u32; 768], c: usize, b: usize) -> f32
    ensures { result ≡ value (entry t.now) c b }
{
    let place = c.saturating_mul(256).saturating_add(b);
    f32_of_bits(t.get(place).copied().unwrap_or(0))
}

fn all_finite(t: &[u32; 768], c: usize) -> bool
    requires { c < 3 }
    ensures { result ≡ all 256 (λ b. finite (value (entry t.now) c b)) }
{
    (0..256).all(|b| value_of(t, c, b).is_finite())
}

fn rises(t: &[u32; 768], c: usize) -> bool
    requires { c < 3 }
    ensures { result ≡ rising (value (entry t.now) c) }
{
    (0..255).all(|b| value_of(t, c, b) < value_of(t, c, b + 1))
}

fn falls(t: &[u32; 768], c: usize) -> bool
    requires { c < 3 }
    ensures { result ≡ falling (value (entry t.now) c) }
{
    (0..255).all(|b| value_of(t, c, b + 1) < value_of(t, c, b))
}

fn channel_allowed(t: &[u32; 768], c: usize) -> bool
    requires { c < 3 }
    ensures { result ≡ channel_allowed (value (entry t.now) c) }
{
    all_finite(t, c) & (rises(t, c) | falls(t, c))
}

pub fn channels_allowed(t: &[u32; 768]) -> bool
    ensures { result ≡ channels_allowed (value (entry t.now)) }
{
    channel_allowed(t, 0) & channel_allowed(t, 1) & channel_allowed(t, 2)
}

// The settings of a call, before its table is made.
pub fn settings_tested(s: PictureSettings) -> Result<(), Refusal>
    ensures { result ≡ settings_tested s }
{
    if !settings_allowed(s) {
        return Err(Refusal::Setting);
    }
    Ok(())
}

// The channels of a call's table. It is lent: 3 KiB by value in a `Result` would be copied three times, and lie on the stack.
pub fn channels_tested(t: &[u32; 768]) -> Result<(), Refusal>
    ensures { result ≡ channels_tested (value (entry t.now)) }
{
    if !channels_allowed(t) {
        return Err(Refusal::Channel);
    }
    Ok(())
}

// The table of a call's means and deviations, where settings and channels are allowed. It is copied as it is handed on: the
// calls on pictures keep theirs where it was made, between the two tests.
pub fn allowed_table(s: PictureSettings) -> Result<[u32; 768], Refusal>
    ensures { result ≡ allowed_table s }
{
    settings_tested(s)?;
    let t = samples(s.mean, s.deviation);
    channels_tested(&t)?;
    Ok(t)
}

#[cfg(test)]
mod tests {
    use super::*;
    use crate::{DEVIATION, MEAN};

    fn given(patch_size: usize, mean: [f32; 3]) -> PictureSettings {
        PictureSettings {
            patch_size,
            spatial_merge_size: 2,
            image_size: 1540,
            resize_rule: 1,
            mean,
            deviation: DEVIATION,
        }
    }

    // The first and the last value of the Rust's table; no side of a patch; a mean beside which no byte counts.
    #[test]
    fn a_table_or_its_number(rt: HostRuntime) {
        let t = allowed_table(given(14, MEAN)).expect(&rt, "its own settings are allowed");
        assert_eq!(rt; [t[0], t[767]], [0xBFE568DC, 0x40095660]);
        assert_eq!(rt; allowed_table(given(0, MEAN)).err(), Some(Refusal::Setting));
        assert_eq!(rt;
            allowed_table(given(14, [1.0e30; 3])).err(),
            Some(Refusal::Channel)
        );
    }
}
