// A text of records, line by line.
ghost use Rattle.std.specs.Prelude.{◌≡◌, replicate};
ghost use Rattle.replay.specs.Pieces.{pieces};
ghost use Rattle.tiles_replay.specs.Record.{tally};

use std::io::Stdout;

// The counts: of preprocess the numbers 0 to 8, what differs, 19 and 20, then the same of restore.
pub(crate) fn replay(stdout: Stdout, text: &[u8]) -> [u64; 24]
    ensures { result ≡ tally (replicate 24 0) (pieces 10 text.now) }
{
    let mut counts = [0u64; 24];
    let mut at = 0;
    while at < text.len() {
        let end = at + replay::line::piece_len(&text[at..], b'\n');
        let p = crate::record::judge(stdout, &text[at..end]);
        let i = p.first;
        let k = p.second + 12;
        counts[i] += 1;
        counts[k] += 1;
        at = end;
    }
    counts
}
