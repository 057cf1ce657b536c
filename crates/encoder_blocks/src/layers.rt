// The blocks one after another.
ghost use Rattle.std.specs.Prelude.{◌≡◌, ◌&&◌, cond, length};
ghost use Rattle.encoder_steps.specs.Run.{answer, ran, handed};
ghost use Rattle.encoder_blocks.specs.Block.{layers_run};
ghost use Rattle.encoder_blocks.specs.Tables.{cos_by, sin_by};
ghost use Rattle.encoder_blocks.specs.inner.Live.{h_at};
ghost use Rattle.encoder_blocks.specs.inner.Room.{layers_fit};
ghost use Rattle.encoder_blocks.specs.inner.Fits.{LayersFits};

use crate::Sizes;
use crate::block::pixtral_block_forward;
use crate::room::{layer_floats, layers_fit};
use buffers::{clear, clear_at, part};
use encoder_settings::{Attention, Tables};

// The layers, whose weights are w.
pub(crate) fn each_layer(
    s: &mut [f32],
    z: Sizes,
    row: usize,
    w: &[f32],
    count: usize,
    tables: Tables,
    f: Attention,
) -> bool
    requires { LayersFits f z (length s.old) (length w.now) tables row count }
    ensures { answer result (h_at z s.new) ≡ layers_run z w.now (cos_by z tables.entry) (sin_by z tables.entry) count (h_at z s.old) }
{
    let size = layer_floats(z);
    let mut ok = true;
    for l in 0..count {
        let r = pixtral_block_forward(s, z, row, part(w, l * size, size), tables, f);
        ok = ok & r;
    }
    ok
}

// The layers, whose weights are w, on h at 0; what they hand on then stands there, with +0 behind it. Says whether all fits and every stage
// was finite; where one was not, all of the scratch is +0.
pub fn layers(
    s: &mut [f32],
    z: Sizes,
    row: usize,
    w: &[f32],
    count: usize,
    tables: Tables,
    f: Attention,
) -> bool
    ensures value { result ≡ (layers_fit f z (length s.old) (length w.now) tables.entry row count
        && ran (layers_run z w.now (cos_by z tables.entry) (sin_by z tables.entry) count (h_at z s.old))) }
    ensures s_after { s.new ≡ cond (layers_fit f z (length s.old) (length w.now) tables.entry row count)
        (handed (layers_run z w.now (cos_by z tables.entry) (sin_by z tables.entry) count (h_at z s.old)) s.old) s.old }
{
    if layers_fit(z, s.len(), w.len(), tables, row, count, f) {
        let ok = each_layer(s, z, row, w, count, tables, f);
        if ok {
            let n = z.tokens * z.hidden;
            clear_at(s, n, s.len() - n);
            return true;
        }
        clear(s);
        return false;
    }
    false
}
