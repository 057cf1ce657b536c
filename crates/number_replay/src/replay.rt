// A text of records, line by line.
ghost use Rattle.std.specs.Prelude.{◌≡◌, ◌∷◌, ◌≤◌, ◌<◌, length, take, drop, replicate};
ghost use Rattle.number_replay.specs.Lines.{lines};
ghost use Rattle.number_replay.specs.Records.{tally};

use crate::record::Verdict;
use std::io::Stdout;

// How many bytes the first line has, its newline among them.
fn line_len(text: &[u8]) -> usize
    requires { 0 < length text.now }
    ensures within { (0 < result) × (result ≤ length text.now) }
    ensures first { lines text.now ≡ take result text.now ∷ lines (drop result text.now) }
{
    let mut i = 0;
    while i < text.len() {
        if text[i] == b'\n' {
            return i + 1;
        }
        i += 1;
    }
    i
}

// Writes a record that does not agree.
fn report(stdout: Stdout, n: u64, line: &[u8], v: Verdict) {
    match v {
        Verdict::Same(_) => {}
        Verdict::Differs(ours) => {
            let _ = stdout.write_all(b"ours ");
            let _ = print!(stdout; "{ours:08x}");
            let _ = stdout.write_all(b" for ");
            let _ = stdout.write_all(line);
        }
        Verdict::Bad => {
            let _ = stdout.write_all(b"bad record ");
            let _ = stdout.print(n);
            let _ = stdout.write_all(b"\n");
        }
    }
}

pub fn replay(stdout: Stdout, text: &[u8]) -> [u64; 8]
    ensures { result ≡ tally (replicate 8 0) (lines text.now) }
{
    let mut counts = [0u64; 8];
    let mut at = 0;
    let mut n: u64 = 0;
    while at < text.len() {
        let end = at + line_len(&text[at..]);
        let line = &text[at..end];
        let v = crate::record::judge(line);
        n += 1;
        report(stdout, n, line, v);
        let k = crate::record::place(v);
        counts[k] += 1;
        at = end;
    }
    counts
}
