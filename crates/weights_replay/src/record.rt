// One record: whether its file is answered as it says.
ghost use Rattle.std.specs.Prelude.{◌≡◌, ◌≤◌, ◌<◌, length};
ghost use Rattle.weights_replay.specs.Record.{settings_of, lent_of, marked, said_agrees, Judges, unread, Steps};

use encoder_settings::EncoderSettings;
use picture_limits::PictureSettings;
use replay::hash::hash_words;
use replay::line::{piece_len, read_line};
use replay::marks::{MARKS, fill_words};
use std::io::Stdout;
use weights::{Misread, weights};

// How long the first record is, and whether its file is answered as it says.
#[derive(Drop)]
pub struct Step {
    pub len: usize,
    pub same: bool,
}

// The settings of a record; the scale is 1.
fn settings(v: &[usize; 18]) -> EncoderSettings
    ensures { result ≡ settings_of v.now }
{
    let picture = PictureSettings {
        patch_size: v[1],
        spatial_merge_size: v[2],
        image_size: v[3],
        resize_rule: v[4],
        mean: [0.0; 3],
        deviation: [0.0; 3],
    };
    EncoderSettings {
        picture,
        hidden_size: v[5],
        num_heads: v[6],
        head_dim: v[7],
        num_layers: v[8],
        intermediate_size: v[9],
        text_hidden_size: v[10],
        projector_bias: v[11],
        scaling: 1.0,
    }
}

// How many of the words are lent: all of them where more are asked for.
fn lent(n: usize) -> usize
    ensures { (result ≡ lent_of n) × (result ≤ 2048) }
{
    if n < 2048 {
        return n;
    }
    2048
}

// Whether number, floats, tensor and place are those of the record.
fn said_agrees(a: Result<usize, Misread>, v: &[usize; 18]) -> bool
    ensures { result ≡ said_agrees a v.now }
{
    match a {
        Ok(n) => (v[13] == 0) & (v[14] == n) & (v[15] == 0) & (v[16] == 0),
        Err(m) => {
            (v[13] == u32::from(m.why) as usize)
                & (v[14] == 0)
                & (v[15] == m.tensor)
                & (v[16] == m.place)
        }
    }
}

// Whether a file is answered as the record says, and leaves the words so.
fn asked(file: &[u8], v: &[usize; 18], out: &mut [u32]) -> bool
    requires { (out.old ≡ marked) × (length out.old ≡ 2048) }
    ensures { Judges file.now v.now result }
{
    let n = lent(v[12]);
    let found = weights(settings(v), file, &mut out[..n]);
    let cells = hash_words(out) as usize;
    said_agrees(found, v) & (cells == v[17])
}

fn judge(file: &[u8], v: &[usize; 18]) -> bool
    ensures { Judges file.now v.now result }
{
    let mut out = [0u32; 2048];
    fill_words(MARKS, &mut out);
    asked(file, v, &mut out)
}

fn cut_short(stdout: Stdout, text: &[u8]) -> Step
    ensures { result ≡ unread text.now }
{
    let _ = stdout.write_all(b"no record: ");
    let _ = stdout.write_all(text);
    Step {
        len: text.len(),
        same: false,
    }
}

// Writes the line of a file that is not answered so.
fn report(stdout: Stdout, same: bool, line: &[u8]) {
    if !same {
        let _ = stdout.write_all(b"not answered so: ");
        let _ = stdout.write_all(line);
    }
}

pub(crate) fn first(stdout: Stdout, text: &[u8]) -> Step
    requires { 0 < length text.now }
    ensures { Steps text.now result × (0 < result.len) × (result.len ≤ length text.now) }
{
    let at = piece_len(text, b'\n');
    let mut v = [0usize; 18];
    if !read_line(&text[..at], &mut v) {
        return cut_short(stdout, text);
    }
    let n = v[0];
    if text.len() - at <= n {
        return cut_short(stdout, text);
    }
    let end = at + n;
    let same = judge(&text[at..end], &v);
    report(stdout, same, &text[..at]);
    Step { len: end + 1, same }
}
