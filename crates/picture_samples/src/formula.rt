// The table of any means and deviations, worked out.
ghost use Rattle.std.specs.Prelude.{◌≡◌, true};
ghost use Rattle.std.specs.Float.Ieee as Ieee;
ghost use Rattle.std.specs.Float.{binary32};
ghost use Rattle.picture_samples.specs.Samples.{sample, own_means, own_deviations, sample_table};

use number_floats::pattern::bits_of_f32;

fn sample_of(mean: f32, deviation: f32, b: u8) -> f32
    ensures { result ≡ sample mean deviation b }
{
    (b as f32 / 255.0 - mean) / deviation
}

pub(crate) fn worked_out(mean: [f32; 3], deviation: [f32; 3]) -> [u32; 768]
    ensures { result ≡ sample_table mean deviation }
{
    let mut t = [0u32; 768];
    for i in 0..768 {
        let c = i / 256;
        t[i] = bits_of_f32(sample_of(mean[c], deviation[c], (i % 256) as u8));
    }
    t
}

fn has_bits(x: f32, bits: u32) -> bool
    ensures { result ≡ true → x ≡ Ieee.of_bits binary32 bits }
{
    bits_of_f32(x) == bits
}

// Whether the means and deviations are the Rust's own.
pub(crate) fn own(mean: [f32; 3], deviation: [f32; 3]) -> bool
    ensures { result ≡ true → sample_table mean deviation ≡ sample_table own_means own_deviations }
{
    has_bits(mean[0], 0x3EF6_813A)
        & has_bits(mean[1], 0x3EEA_685E)
        & has_bits(mean[2], 0x3ED1_00FF)
        & (has_bits(deviation[0], 0x3E89_89D0)
            & has_bits(deviation[1], 0x3E85_C974)
            & has_bits(deviation[2], 0x3E8D_32A8))
}
