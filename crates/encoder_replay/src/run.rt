// A record's call. v holds its 28 numbers, in the order that main.rt lists.
ghost use Rattle.std.specs.Prelude.{◌≡◌, length};
ghost use Rattle.encoder_replay.specs.Run.{attention_of, encoded_as, out_as, scratch_as, answer_of, settings_of, inputs_from, call_of, run_of};
ghost use Rattle.encoder_replay.specs.inner.Room.{Small, Room};

use encoder_settings::{Attention, EncoderSettings};
use picture_limits::{PictureSettings, Refusal};
use replay::damage::damage;
use replay::hash::hash_floats;
use replay::marks::{MARKS, fill_floats, fill_units};

// The cells of the inputs: patches from 0 on, weights from 1024, cosines from 7168, sines from 7680.
pub const CELLS: usize = 8192;

pub const SCRATCH: usize = 4096;

pub const OUT: usize = 1024;

// What a forward answers, and the hashes of its output and its scratch afterwards.
#[derive(Clone, Copy)]
pub struct Answer {
    pub number: usize,
    pub tokens: usize,
    pub out: usize,
    pub scratch: usize,
}

// A record's attention: plain where its number for that is 1.
fn attention(plain: usize) -> Attention
    ensures { result ≡ attention_of plain }
{
    if plain == 1 {
        return Attention::Plain;
    }
    Attention::RowWise
}

// Forward, or forward with plain attention.
fn forward_as(
    f: Attention,
    s: EncoderSettings,
    patches: &[f32],
    gh: usize,
    gw: usize,
    weights: &[f32],
    cos: &[f32],
    sin: &[f32],
    scratch: &mut [f32],
    out: &mut [f32],
) -> Result<usize, Refusal>
    ensures value { result ≡ encoded_as f s gh gw weights.now cos.now sin.now patches.now (length out.old) (length scratch.old) }
    ensures out_after { out.new ≡ out_as f s gh gw weights.now cos.now sin.now patches.now (length scratch.old) out.old }
    ensures scratch_after { scratch.new ≡ scratch_as f s gh gw weights.now cos.now sin.now patches.now (length out.old) scratch.old }
{
    match f {
        Attention::RowWise => {
            encoder::forward::forward(s, patches, gh, gw, weights, cos, sin, scratch, out)
        }
        Attention::Plain => {
            encoder::forward::forward_plain(s, patches, gh, gw, weights, cos, sin, scratch, out)
        }
    }
}

fn encode(
    f: Attention,
    s: EncoderSettings,
    patches: &[f32],
    gh: usize,
    gw: usize,
    weights: &[f32],
    cos: &[f32],
    sin: &[f32],
    scratch: &mut [f32],
    out: &mut [f32],
) -> Answer
    ensures { result ≡ answer_of f s gh gw weights.now cos.now sin.now patches.now scratch.old out.old }
{
    let found = forward_as(f, s, patches, gh, gw, weights, cos, sin, scratch, out);
    let left = hash_floats(out) as usize;
    let work = hash_floats(scratch) as usize;
    match found {
        Ok(count) => Answer {
            number: 0,
            tokens: count,
            out: left,
            scratch: work,
        },
        Err(r) => Answer {
            number: u32::from(r) as usize,
            tokens: 0,
            out: left,
            scratch: work,
        },
    }
}

// Means and deviations of 0, which preprocess refuses and forward never reads.
fn settings(v: &[usize; 28]) -> EncoderSettings
    ensures { result ≡ settings_of v.now }
{
    let p = PictureSettings {
        patch_size: v[0],
        spatial_merge_size: v[1],
        image_size: v[2],
        resize_rule: v[25],
        mean: [0.0; 3],
        deviation: [0.0; 3],
    };
    EncoderSettings {
        picture: p,
        hidden_size: v[3],
        num_heads: v[4],
        head_dim: v[5],
        num_layers: v[6],
        intermediate_size: v[7],
        text_hidden_size: v[8],
        projector_bias: v[26],
        scaling: number_floats::pattern::f32_of_bits((v[9] % 4294967296) as u32),
    }
}

// The inputs of a record's seed, once they are damaged.
fn inputs(v: &[usize; 28], cells: &mut [f32])
    ensures { cells.new ≡ inputs_from v.now (length cells.old) }
{
    fill_units(v[18], cells);
    damage(cells, v[19], v[20]);
}

// The call over the front of each buffer.
fn call(v: &[usize; 28], cells: &[f32], scratch: &mut [f32], out: &mut [f32]) -> Answer
    requires small { Small v.now }
    requires room { Room (length cells.now) (length scratch.old) (length out.old) }
    ensures { result ≡ call_of v.now cells.now scratch.old out.old }
{
    let p = v[12];
    let w = 1024 + v[13];
    let c = 7168 + v[14];
    let d = 7680 + v[15];
    let m = v[16];
    let n = v[17];
    encode(
        attention(v[27]),
        settings(v),
        &cells[..p],
        v[10],
        v[11],
        &cells[1024..w],
        &cells[7168..c],
        &cells[7680..d],
        &mut scratch[..m],
        &mut out[..n],
    )
}

pub(crate) fn run(v: &[usize; 28]) -> Answer
    requires { Small v.now }
    ensures { result ≡ run_of v.now }
{
    let mut cells = [0.0f32; CELLS];
    inputs(v, &mut cells);
    let mut scratch = [0.0f32; SCRATCH];
    fill_floats(MARKS, &mut scratch);
    let mut out = [0.0f32; OUT];
    fill_floats(MARKS, &mut out);
    call(v, &cells, &mut scratch, &mut out)
}
