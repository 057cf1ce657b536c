// How long each buffer of a forward call has to be.
ghost use Rattle.std.specs.Prelude.{◌≡◌};
ghost use Rattle.encoder_settings.specs.Lengths.{needed_of};

use crate::EncoderSettings;
use crate::settings::{
    axes_needed, scratch_needed, settings_allowed, tables_needed, weights_needed,
};
use picture_limits::Refusal;
use picture_limits::settings::grid_allowed;

// How many floats each buffer of a forward call has to have.
#[derive(Clone, Copy, PartialEq, Eq, Debug)]
pub struct Lengths {
    pub patches: usize,
    pub weights: usize,
    pub tables: usize,
    pub axes: usize,
    pub scratch: usize,
    pub out: usize,
}

// What forward compares the lengths with, for these settings and this grid: numbers 1 and 6.
pub fn needed(s: EncoderSettings, grid_h: usize, grid_w: usize) -> Result<Lengths, Refusal>
    ensures { result ≡ needed_of s grid_h grid_w }
{
    if !settings_allowed(s) {
        return Err(Refusal::Setting);
    }
    let q = s.picture;
    if !grid_allowed(q, grid_h, grid_w) {
        return Err(Refusal::Grid);
    }
    let p = q.patch_size;
    let m = q.spatial_merge_size;
    let t = grid_h * grid_w;
    let o = t / (m * m);
    let weights = weights_needed(s);
    let tables = tables_needed(s);
    let axes = axes_needed(s);
    let scratch = scratch_needed(s, t, o);
    Ok(Lengths {
        patches: t * (3 * (p * p)),
        weights,
        tables,
        axes,
        scratch,
        out: o * s.text_hidden_size,
    })
}
