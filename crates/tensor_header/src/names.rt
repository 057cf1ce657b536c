// The names of the tensors that the loader asks for, in the order of the weights' table.
ghost use Rattle.std.specs.Prelude.{◌≡◌, true, ◌++◌, ◌<◌, ◌≤◌, drop};
ghost use Rattle.json_members.specs.Names.{word};
ghost use Rattle.json_members.specs.inner.Bytes.{behind_at, followed};
ghost use Rattle.tensor_header.specs.Tensors.{decimal, tensors};
ghost use Rattle.tensor_header.specs.inner.Named.{names, named_at, embedding_names, part_names, projector_names};

use encoder_settings::EncoderSettings;
use json_members::name::{behind, name_is};

// Whether a name of the header h is that of part i of the embedding.
fn embedding_is(h: &[u8], at: usize, i: usize) -> bool
    ensures { result ≡ named_at embedding_names i (drop at h.now) }
{
    if i == 0 {
        return name_is(h, at, b"vision_tower.patch_conv.weight");
    }
    if i == 1 {
        return name_is(h, at, b"vision_tower.ln_pre.weight");
    }
    false
}

// The same of a layer's part, behind the layer's prefix.
fn part_is(h: &[u8], at: usize, i: usize) -> bool
    ensures { result ≡ named_at part_names i (drop at h.now) }
{
    if i == 0 {
        return name_is(h, at, b"attention_norm.weight");
    }
    if i == 1 {
        return name_is(h, at, b"attention.q_proj.weight");
    }
    if i == 2 {
        return name_is(h, at, b"attention.k_proj.weight");
    }
    if i == 3 {
        return name_is(h, at, b"attention.v_proj.weight");
    }
    if i == 4 {
        return name_is(h, at, b"attention.o_proj.weight");
    }
    if i == 5 {
        return name_is(h, at, b"ffn_norm.weight");
    }
    if i == 6 {
        return name_is(h, at, b"feed_forward.gate_proj.weight");
    }
    if i == 7 {
        return name_is(h, at, b"feed_forward.up_proj.weight");
    }
    if i == 8 {
        return name_is(h, at, b"feed_forward.down_proj.weight");
    }
    false
}

// The same of a part of a projector that has a bias.
fn biased_is(h: &[u8], at: usize, i: usize) -> bool
    ensures { result ≡ named_at (projector_names true) i (drop at h.now) }
{
    if i == 0 {
        return name_is(h, at, b"multi_modal_projector.norm.weight");
    }
    if i == 1 {
        return name_is(
            h,
            at,
            b"multi_modal_projector.patch_merger.merging_layer.weight",
        );
    }
    if i == 2 {
        return name_is(h, at, b"multi_modal_projector.linear_1.weight");
    }
    if i == 3 {
        return name_is(h, at, b"multi_modal_projector.linear_1.bias");
    }
    if i == 4 {
        return name_is(h, at, b"multi_modal_projector.linear_2.weight");
    }
    if i == 5 {
        return name_is(h, at, b"multi_modal_projector.linear_2.bias");
    }
    false
}

// Without a bias the fourth part is linear_2's matrix.
fn projector_is(h: &[u8], at: usize, i: usize, bias: bool) -> bool
    ensures { result ≡ named_at (projector_names bias) i (drop at h.now) }
{
    if bias {
        return biased_is(h, at, i);
    }
    if i < 3 {
        return biased_is(h, at, i);
    }
    if i == 3 {
        return biased_is(h, at, 4);
    }
    false
}

// Behind a layer's number and the dot.
fn behind_number(h: &[u8], at: usize, l: usize) -> Option<usize>
    requires { l < 100 }
    ensures { result ≡ behind_at h.now at (decimal l ++ word ".") }
{
    let tens = b'0' + (l / 10) as u8;
    let ones = b'0' + (l % 10) as u8;
    if l < 10 {
        return behind(h, at, &[ones, b'.']);
    }
    behind(h, at, &[tens, ones, b'.'])
}

// Behind what the names of all layers begin with: whether a name does, and where.
pub(crate) fn behind_layers(h: &[u8], at: usize) -> Option<usize>
    ensures { result ≡ behind_at h.now at (word "vision_tower.transformer.layers.") }
{
    behind(h, at, b"vision_tower.transformer.layers.")
}

fn layer_is(h: &[u8], at: usize, l: usize, i: usize) -> bool
    requires { l < 100 }
    ensures { result ≡ followed (behind_at h.now at (decimal l ++ word ".")) (λ n. named_at part_names i (drop n h.now)) }
{
    match behind_number(h, at, l) {
        Some(n) => part_is(h, n, i),
        None => false,
    }
}

// Whether a name of the header is that of tensor i; `rest` is where it goes on, if it begins as those of layers do.
pub(crate) fn tensor_is(
    s: EncoderSettings,
    h: &[u8],
    at: usize,
    rest: Option<usize>,
    i: usize,
) -> bool
    requires num_layers_bound { s.num_layers ≤ 48 }
    requires rest_value { rest ≡ behind_at h.now at (word "vision_tower.transformer.layers.") }
    ensures { result ≡ named_at (names (tensors s)) i (drop at h.now) }
{
    if i < 2 {
        return embedding_is(h, at, i);
    }
    let k = i - 2;
    let l = k / 9;
    if l < s.num_layers {
        return match rest {
            Some(n) => layer_is(h, n, l, k % 9),
            None => false,
        };
    }
    projector_is(h, at, k - 9 * s.num_layers, s.projector_bias == 1)
}
