// How many tensors are asked for, and how many floats each has.
ghost use Rattle.std.specs.Prelude.{◌≡◌, true, ◌+◌, ◌≤◌, length};
ghost use Rattle.encoder_settings.specs.Settings.{allowed, weight_floats};
ghost use Rattle.encoder_settings.specs.inner.Bounds.{Bounded};
ghost use Rattle.tensor_header.specs.Tensors.{embedding_tensors, layer_tensors, projector_tensors, tensors, count_at};

use encoder_settings::EncoderSettings;

// The floats of part i of the embedding; 0 beyond.
fn embedding_count(s: EncoderSettings, i: usize) -> usize
    requires { Bounded s }
    ensures { result ≡ count_at (embedding_tensors s) i }
{
    let q = s.picture;
    let p = q.patch_size;
    if i == 0 {
        return s.hidden_size * (3 * (p * p));
    }
    if i == 1 {
        return s.hidden_size;
    }
    0
}

// The same of a layer: all are alike.
fn part_count(s: EncoderSettings, i: usize) -> usize
    requires { Bounded s }
    ensures { result ≡ count_at (layer_tensors s 0) i }
{
    let h = s.hidden_size;
    let n = s.intermediate_size;
    if i == 0 {
        return h;
    }
    if i < 5 {
        return h * h;
    }
    if i == 5 {
        return h;
    }
    if i < 8 {
        return n * h;
    }
    if i == 8 {
        return h * n;
    }
    0
}

// The same of the projector, behind linear_1's matrix.
fn ending_count(s: EncoderSettings, i: usize) -> usize
    requires { Bounded s }
    ensures { result ≡ count_at (projector_tensors s) (3 + i) }
{
    let x = s.text_hidden_size;
    let bias = s.projector_bias == 1;
    if bias {
        if i == 0 {
            return x;
        }
        if i == 1 {
            return x * x;
        }
        if i == 2 {
            return x;
        }
        return 0;
    }
    if i == 0 {
        return x * x;
    }
    0
}

// The same of the projector, from its start.
fn projector_count(s: EncoderSettings, i: usize) -> usize
    requires { Bounded s }
    ensures { result ≡ count_at (projector_tensors s) i }
{
    let q = s.picture;
    let m = q.spatial_merge_size;
    let h = s.hidden_size;
    if i == 0 {
        return h;
    }
    if i == 1 {
        return h * (h * (m * m));
    }
    if i == 2 {
        return s.text_hidden_size * h;
    }
    ending_count(s, i - 3)
}

// The floats of tensor i; 0 beyond. The embedding has two tensors, and each layer nine.
pub(crate) fn count_at(s: EncoderSettings, i: usize) -> usize
    requires { allowed s ≡ true }
    ensures { result ≡ count_at (tensors s) i }
{
    if i < 2 {
        return embedding_count(s, i);
    }
    let k = i - 2;
    if k / 9 < s.num_layers {
        return part_count(s, k % 9);
    }
    projector_count(s, k - 9 * s.num_layers)
}

// How many tensors are asked for: two, nine of each layer, and four, or six with the biases.
pub(crate) fn tensor_count(s: EncoderSettings) -> usize
    requires { allowed s ≡ true }
    ensures value { result ≡ length (tensors s) }
    ensures upper_bound { result ≤ 440 }
{
    6 + 9 * s.num_layers + 2 * s.projector_bias
}

// The floats of all tensors, which are those of all weights.
pub(crate) fn total(s: EncoderSettings) -> usize
    requires { allowed s ≡ true }
    ensures { result ≡ weight_floats s }
{
    let n = tensor_count(s);
    let mut sum = 0;
    for i in 0..n {
        sum += count_at(s, i);
    }
    sum
}
