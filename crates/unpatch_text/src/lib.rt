// Text in, text out: a picture and its settings, to patches and back.
#![tactic(auto)]

mod print;
mod run;

ghost use Rattle.std.specs.Prelude.{◌≡◌};
ghost use Rattle.unpatch_text.specs.Answer.{answer, length_left, text_left};

use crate::print::put_bytes;
use crate::run::run;
use picture_limits::PictureSettings;
use picture_samples::{DEVIATION, MEAN};
use unpatch_read::read::read;

// No answer is longer than this: the grid's line and 64 rows of 64 pixels.
pub const ROOM: usize = 25094;

// The answer to the input over the front of out, and its length: 0, and out as it was, where out is shorter than ROOM.
pub fn unpatch(input: &[u8], out: &mut [u8]) -> usize
    ensures answer { result ≡ length_left (answer input.now) out.old }
    ensures output { out.new ≡ text_left (answer input.now) out.old }
{
    if out.len() < ROOM {
        return 0;
    }
    let mut rgb = [0u8; 24576];
    let Some(q) = read(input, &mut rgb) else {
        return put_bytes(b"refused\ttext\n", 0, out);
    };
    let s = PictureSettings {
        patch_size: q.patch,
        spatial_merge_size: q.merge,
        image_size: q.image,
        resize_rule: 1,
        mean: MEAN,
        deviation: DEVIATION,
    };
    run(s, &rgb[..q.bytes], q.height, q.width, out)
}
