// A text of records, line by line.
ghost use Rattle.std.specs.Prelude.{◌≡◌, replicate};
ghost use Rattle.replay.specs.Pieces.{pieces};
ghost use Rattle.salvage_replay.specs.Record.{tally};

use replay::line::lines_of;
use std::io::Stdout;

// The counts: of the numbers 0 to 8, what differs, 19 and 21.
pub(crate) fn replay(stdout: Stdout, text: &[u8]) -> [u64; 12]
    ensures { result ≡ tally (replicate 12 0) (pieces 10 text.now) }
{
    let mut counts = [0u64; 12];
    for line in lines_of(text) {
        let i = crate::record::judge(stdout, line);
        counts[i] += 1;
    }
    counts
}
