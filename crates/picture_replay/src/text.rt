// A text of records, line by line.
ghost use Rattle.std.specs.Prelude.{◌≡◌, replicate};
ghost use Rattle.replay.specs.Pieces.{pieces};
ghost use Rattle.picture_replay.specs.Record.{tally};

use std::io::Stdout;

// The counts: of preprocess the numbers 0 to 5, what differs, and 19, then of restore 0 to 8 and the same.
pub(crate) fn replay(stdout: Stdout, text: &[u8]) -> [u64; 19]
    ensures { result ≡ tally (replicate 19 0) (pieces 10 text.now) }
{
    let mut counts = [0u64; 19];
    let mut at = 0;
    while at < text.len() {
        let end = at + replay::line::piece_len(&text[at..], b'\n');
        let p = crate::record::judge(stdout, &text[at..end]);
        let i = p.first;
        let k = p.second + 8;
        counts[i] += 1;
        counts[k] += 1;
        at = end;
    }
    counts
}
