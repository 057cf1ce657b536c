// A text of records, line by line; each finds the pool and the slice as the lines before it have left them.
ghost use Rattle.std.specs.Prelude.{◌≡◌, replicate};
ghost use Rattle.number_floats.specs.Constants.{zero32};
ghost use Rattle.pool.specs.Pool.{new_pool};
ghost use Rattle.replay.specs.Pieces.{pieces};
ghost use Rattle.pool_replay.specs.Record.{tally};

use crate::record::judge;
use std::io::Stdout;

// The counts: of the number 0, of 23 to 27, and of what differs.
pub(crate) fn replay(stdout: Stdout, text: &[u8]) -> [u64; 7]
    ensures { result ≡ tally (replicate 7 0) (new_pool 0) (replicate 512 zero32) (pieces 10 text.now) }
{
    let mut counts = [0u64; 7];
    let mut slice = [0.0f32; 512];
    let mut p = pool::new(0);
    let mut at = 0;
    while at < text.len() {
        let end = at + replay::line::piece_len(&text[at..], b'\n');
        let judged = judge(stdout, p, &mut slice, &text[at..end]);
        let i = judged.place;
        counts[i] += 1;
        let after = judged.pool;
        p = after;
        at = end;
    }
    counts
}
