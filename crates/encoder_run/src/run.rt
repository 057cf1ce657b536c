// The whole run in the scratch, and its end.
ghost use Rattle.std.specs.Prelude.{◌≡◌, ◌+◌, ◌*◌, ◌≤◌, length};
ghost use Rattle.buffers.specs.Region.{region, cleared};
ghost use Rattle.encoder_settings.specs.Settings.{accepted};
ghost use Rattle.encoder_blocks.specs.Tables.{cos_by, sin_by};
ghost use Rattle.encoder_steps.specs.Run.{answer};
ghost use Rattle.encoder_run.specs.inner.Live.{regions_of};
ghost use Rattle.encoder_run.specs.Stages.{sizes_of, run_of};
ghost use Rattle.encoder_run.specs.Answer.{encoded_by, out_by};
ghost use Rattle.encoder_run.specs.inner.Fits.{RunFits};

use crate::embed::{embed, inputs_finite};
use crate::layout::{counts_of, regions, sizes_of};
use crate::projector::projector_forward;
use buffers::{clear, copy, part};
use encoder_blocks::layers::layers;
use encoder_settings::{Attention, EncoderSettings, Tables};
use picture_limits::Refusal;

// The run in the scratch; its result stands at linear_2's place.
pub(crate) fn encode(
    s: EncoderSettings,
    patches: &[f32],
    gh: usize,
    gw: usize,
    t: usize,
    o: usize,
    w: &[f32],
    tables: Tables,
    scratch: &mut [f32],
    f: Attention,
) -> bool
    requires bound { 1 ≤ s.picture.patch_size }
    requires run_fits { RunFits f s gh gw t o (length patches.now) (length w.now) tables (length scratch.old) }
    ensures { answer result (region scratch.new ((regions_of (sizes_of s t gw) (o * s.text_hidden_size)).linear + o * s.text_hidden_size) (o * s.text_hidden_size))
        ≡ run_of s gh gw t o w.now (cos_by (sizes_of s t gw) tables.entry) (sin_by (sizes_of s t gw) tables.entry) patches.now }
{
    let q = s.picture;
    let z = sizes_of(s, t, gw);
    let p = counts_of(s, z);
    let r = regions(z, o * s.text_hidden_size);
    let at = p.embedding + p.layers;
    let ok = inputs_finite(patches, w, tables, z);
    let a = embed(patches, scratch, z, p.patch, part(w, 0, p.embedding));
    let v = part(w, p.embedding, p.layers);
    let b = layers(scratch, z, r.row, v, s.num_layers, tables, f);
    let u = part(w, at, w.len() - at);
    let c = projector_forward(
        scratch,
        u,
        t,
        z.hidden,
        o,
        p.merged,
        s.text_hidden_size,
        s.projector_bias,
        q.spatial_merge_size,
        gh,
        gw,
        r.linear,
    );
    ((ok & a) & b) & c
}

// The run, and its token vectors in the output where every stage was finite. The scratch is then +0.
pub(crate) fn run(
    s: EncoderSettings,
    patches: &[f32],
    gh: usize,
    gw: usize,
    t: usize,
    o: usize,
    w: &[f32],
    tables: Tables,
    scratch: &mut [f32],
    out: &mut [f32],
    f: Attention,
) -> Result<usize, Refusal>
    requires bound { 1 ≤ s.picture.patch_size }
    requires run_fits { RunFits f s gh gw t o (length patches.now) (length w.now) tables (length scratch.old) }
    requires text_hidden_size_in_bounds { o * s.text_hidden_size ≤ length out.old }
    ensures value { result ≡ encoded_by (accepted t o) (run_of s gh gw t o w.now (cos_by (sizes_of s t gw) tables.entry) (sin_by (sizes_of s t gw) tables.entry) patches.now) }
    ensures out_after { out.new ≡ out_by (accepted t o) (run_of s gh gw t o w.now (cos_by (sizes_of s t gw) tables.entry) (sin_by (sizes_of s t gw) tables.entry) patches.now) out.old }
    ensures scratch_after { scratch.new ≡ cleared scratch.old }
{
    let h = s.hidden_size;
    let e = o * s.text_hidden_size;
    let at = 7 * (t * h) + 2 * (t * s.intermediate_size) + e;
    let ok = encode(s, patches, gh, gw, t, o, w, tables, scratch, f);
    if ok {
        copy(part(scratch, at, e), out);
        clear(scratch);
        return Ok(o);
    }
    clear(scratch);
    Err(Refusal::NotFinite)
}
