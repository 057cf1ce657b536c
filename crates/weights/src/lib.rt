// Weights from a safetensors file, in the order of the weights' table.
#![tactic(auto)]

mod counts;
mod entry;
mod fill;
mod judge;
mod test;

ghost use Rattle.std.specs.Prelude.{◌≡◌, true, ◌≤◌, length};
ghost use Rattle.encoder_settings.specs.Settings.{allowed};
ghost use Rattle.tensor_header.specs.Tensors.{tensors};
ghost use Rattle.weights.specs.File.{Weighing, headless};
ghost use Rattle.weights.specs.inner.Filled.{Reads};

use crate::fill::fill;
use crate::judge::judge;
use encoder_settings::EncoderSettings;
use picture_limits::Refusal;
use tensor_header::open;

// Why a file is refused, at which tensor, of which the first is 1 and 0 is none, and at which byte of the file.
#[derive(Clone, Copy, PartialEq, Eq, Debug)]
pub struct Misread {
    pub why: Refusal,
    pub tensor: usize,
    pub place: usize,
}

// What the header's reader refuses is at no tensor.
impl From<tensor_header::Misread> for Misread {
    ghost from_gives = { λ h m. m ≡ headless h };

    fn from(h: tensor_header::Misread) -> Misread {
        Misread {
            why: h.why,
            tensor: 0,
            place: h.place,
        }
    }
}

// By a header and the data behind it.
fn read(
    s: EncoderSettings,
    h: &[u8],
    bytes: &[u8],
    places: &[usize],
    out: &mut [u32],
) -> Result<usize, Misread>
    requires s_value { allowed s ≡ true }
    requires s_in_bounds { length (tensors s) ≤ length places.now }
    ensures { Reads s h.now bytes.now places.now out.old out.new result }
{
    let n = judge(s, h, places, bytes.len(), out.len())?;
    fill(s, h, bytes, places, out);
    Ok(n)
}

// The weights that the file has, over the front of out, and how many floats they are; nothing is written where they are refused.
pub fn weights(s: EncoderSettings, file: &[u8], out: &mut [u32]) -> Result<usize, Misread>
    ensures { Weighing s file.now out.old out.new result }
{
    // 48 layers have nine tensors each, and eight are asked for beside them.
    let mut places = [0usize; 440];
    let n = open(s, file, &mut places)?;
    let e = 8 + n;
    read(s, &file[8..e], &file[e..], &places, out)
}
