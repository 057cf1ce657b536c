// A text of records, line by line.
ghost use Rattle.std.specs.Prelude.{◌≡◌, replicate};
ghost use Rattle.replay.specs.Pieces.{pieces};
ghost use Rattle.encoder_replay.specs.Record.{tally};

use std::io::Stdout;

// The counts: the numbers 0 to 22, and what differs.
pub(crate) fn replay(stdout: Stdout, text: &[u8]) -> [u64; 24]
    ensures { result ≡ tally (replicate 24 0) (pieces 10 text.now) }
{
    let mut counts = [0u64; 24];
    let mut at = 0;
    while at < text.len() {
        let end = at + replay::line::piece_len(&text[at..], b'\n');
        let i = crate::record::judge(stdout, &text[at..end]);
        counts[i] += 1;
        at = end;
    }
    counts
}
