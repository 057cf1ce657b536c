// What a call's settings and lengths say before anything is read or written.
ghost use Rattle.std.specs.Prelude.{◌≡◌, true};
ghost use Rattle.encoder_settings.specs.Settings as S;
ghost use Rattle.encoder_settings.specs.Settings.{ranged, scaling_allowed, allowed, weight_floats, table_floats, axis_floats, scratch_floats, lengths_fit, few_tokens, scratch_by, checked_by};
ghost use Rattle.encoder_settings.specs.inner.Bounds.{Bounded, Counted};

use crate::{Attention, EncoderSettings, TableLengths};
use picture_limits::Refusal;
use picture_limits::settings::shape;

// What an accepted call has: its tokens, of which count are left.
#[derive(Clone, Copy, PartialEq, Eq, Debug)]
pub struct Accepted {
    pub tokens: usize,
    pub count: usize,
}

pub(crate) fn in_range(s: EncoderSettings) -> bool
    ensures { result ≡ ranged s }
{
    let h = s.hidden_size;
    let n = s.num_heads;
    let d = s.head_dim;
    let i = s.intermediate_size;
    let x = s.text_hidden_size;
    ((4 <= h) & (h <= 2048))
        & (((1 <= n) & (n <= 64))
            & (((4 <= d) & (d <= 256))
                & ((s.num_layers <= 48)
                    & (((1 <= i) & (i <= 8192))
                        & (((1 <= x) & (x <= 8192)) & (s.projector_bias <= 1))))))
}

pub(crate) fn scale_allowed(s: EncoderSettings) -> bool
    ensures { result ≡ scaling_allowed s }
{
    let x = s.scaling;
    (0.0 < x) & (x < 1.0 / 0.0)
}

pub fn settings_allowed(s: EncoderSettings) -> bool
    ensures { result ≡ allowed s }
{
    let p = s.picture;
    if !picture_limits::settings::settings_allowed(p) {
        return false;
    }
    if !in_range(s) {
        return false;
    }
    (s.head_dim % 4 == 0) & ((s.num_heads * s.head_dim == s.hidden_size) & scale_allowed(s))
}

pub(crate) fn weights_needed(s: EncoderSettings) -> usize
    requires { Bounded s }
    ensures { result ≡ weight_floats s }
{
    let q = s.picture;
    let p = q.patch_size;
    let m = q.spatial_merge_size;
    let h = s.hidden_size;
    let x = s.text_hidden_size;
    let i = s.intermediate_size;
    let layer = 2 * h + 4 * (h * h) + 2 * (i * h) + h * i;
    let bias = s.projector_bias * x;
    let projector = h + h * (h * (m * m)) + x * h + bias + x * x + bias;
    h * (3 * (p * p)) + h + s.num_layers * layer + projector
}

pub(crate) fn tables_needed(s: EncoderSettings) -> usize
    requires { Bounded s }
    ensures { result ≡ table_floats s }
{
    let q = s.picture;
    let most = q.image_size / q.patch_size;
    most * most * s.head_dim
}

pub(crate) fn axes_needed(s: EncoderSettings) -> usize
    requires { Bounded s }
    ensures { result ≡ axis_floats s }
{
    let q = s.picture;
    q.image_size / q.patch_size * (s.head_dim / 4)
}

// The plain attention takes at most 64 tokens.
pub(crate) fn few_tokens(t: usize, f: Attention) -> bool
    ensures { result ≡ few_tokens f t }
{
    match f {
        Attention::RowWise => true,
        Attention::Plain => t <= 64,
    }
}

// The tables have the lengths that they need.
pub(crate) fn tables_fit(s: EncoderSettings, tables: TableLengths) -> bool
    requires { Bounded s }
    ensures { result ≡ lengths_fit s tables }
{
    match tables {
        TableLengths::Full { cos, sin } => {
            let n = tables_needed(s);
            (cos == n) & (sin == n)
        }
        TableLengths::Axes {
            row_cos,
            row_sin,
            column_cos,
            column_sin,
        } => {
            let n = axes_needed(s);
            ((row_cos == n) & (row_sin == n)) & ((column_cos == n) & (column_sin == n))
        }
    }
}

pub(crate) fn scratch_needed(s: EncoderSettings, t: usize, o: usize) -> usize
    requires { Counted s t o }
    ensures { result ≡ scratch_floats s t o }
{
    7 * (t * s.hidden_size) + 2 * (t * s.intermediate_size) + t + 2 * (o * s.text_hidden_size)
}

// The same by the attention: the plain one has a matrix of scores where the other has a row.
pub(crate) fn scratch_by(s: EncoderSettings, t: usize, o: usize, f: Attention) -> usize
    requires counted { Counted s t o }
    requires t_value { few_tokens f t ≡ true }
    ensures { result ≡ scratch_by f s t o }
{
    let n = scratch_needed(s, t, o);
    match f {
        Attention::RowWise => n,
        Attention::Plain => n + (t * t - t),
    }
}

pub(crate) fn lengths(
    s: EncoderSettings,
    t: usize,
    o: usize,
    weights: usize,
    tables: bool,
    out: usize,
    needed: usize,
    scratch: usize,
) -> Result<Accepted, Refusal>
    requires { Bounded s × Counted s t o }
    ensures { result ≡ S.lengths s t o weights tables out needed scratch }
{
    if weights != weights_needed(s) {
        return Err(Refusal::WeightsLength);
    }
    if !tables {
        return Err(Refusal::TableLength);
    }
    if out < o * s.text_hidden_size {
        return Err(Refusal::Output);
    }
    if scratch < needed {
        return Err(Refusal::Scratch);
    }
    Ok(Accepted {
        tokens: t,
        count: o,
    })
}

pub fn checked(
    s: EncoderSettings,
    grid_h: usize,
    grid_w: usize,
    patches: usize,
    weights: usize,
    tables: TableLengths,
    out: usize,
    scratch: usize,
    f: Attention,
) -> Result<Accepted, Refusal>
    ensures { result ≡ checked_by f s grid_h grid_w patches weights (lengths_fit s tables) out scratch }
{
    if !settings_allowed(s) {
        return Err(Refusal::Setting);
    }
    let q = s.picture;
    let tokens = shape(q, grid_h, grid_w, patches)?;
    if !few_tokens(tokens, f) {
        return Err(Refusal::Tokens);
    }
    let m = q.spatial_merge_size;
    let o = tokens / (m * m);
    let fit = tables_fit(s, tables);
    let needed = scratch_by(s, tokens, o, f);
    lengths(s, tokens, o, weights, fit, out, needed, scratch)
}
