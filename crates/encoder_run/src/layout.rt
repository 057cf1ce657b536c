// The sizes of a call, how they cut the weights, and the places in the scratch that follow from them.
ghost use Rattle.std.specs.Prelude.{◌≡◌, ◌≤◌};
ghost use Rattle.encoder_run.specs.inner.Live.{regions_of, counts_of};
ghost use Rattle.encoder_run.specs.Stages.{sizes_of};
ghost use Rattle.encoder_run.specs.inner.Fits.{CountsFit, RegionsFit};

use crate::{Counts, Regions};
use encoder_blocks::Sizes;
use encoder_settings::EncoderSettings;

pub(crate) fn sizes_of(s: EncoderSettings, t: usize, gw: usize) -> Sizes
    requires { 1 ≤ s.picture.patch_size }
    ensures { result ≡ sizes_of s t gw }
{
    let q = s.picture;
    Sizes {
        tokens: t,
        grid_w: gw,
        side: q.image_size / q.patch_size,
        hidden: s.hidden_size,
        heads: s.num_heads,
        head_dim: s.head_dim,
        inter: s.intermediate_size,
        scaling: s.scaling,
    }
}

pub(crate) fn counts_of(s: EncoderSettings, z: Sizes) -> Counts
    requires { CountsFit s z }
    ensures { result ≡ counts_of s z }
{
    let q = s.picture;
    let p = q.patch_size;
    let m = q.spatial_merge_size;
    let i = z.inter;
    let h = z.hidden;
    let f = 3 * (p * p);
    let layer = 2 * h + 4 * (h * h) + 2 * (i * h) + h * i;
    Counts {
        patch: f,
        embedding: h * f + h,
        layers: s.num_layers * layer,
        merged: h * (m * m),
    }
}

pub(crate) fn regions(z: Sizes, e: usize) -> Regions
    requires { RegionsFit z e }
    ensures { result ≡ regions_of z e }
{
    let t = z.tokens;
    let lin = 7 * (t * z.hidden) + 2 * (t * z.inter);
    Regions {
        linear: lin,
        row: lin + 2 * e,
    }
}
