// One record: whether its text is answered as it says.
ghost use Rattle.std.specs.Prelude.{◌≡◌, ◌-◌, ◌≤◌, ◌<◌, length};
ghost use Rattle.unpatch_form.specs.Words.{same};
ghost use Rattle.unpatch_text.specs.Answer.{answer};
ghost use Rattle.unpatch_replay.specs.Record.{size_of, unread, step_of};

use std::io::Stdout;

// How long the first record is, and whether its text is answered as it says.
#[derive(Drop)]
pub struct Step {
    pub len: usize,
    pub same: bool,
}

fn digit(b: u8) -> usize
    ensures { (result ≡ b - 48) × (result ≤ 255) }
{
    if b < b'0' {
        return 0;
    }
    (b - b'0') as usize
}

// Five digits.
fn size(s: &[u8]) -> usize
    requires { length s.now ≡ 5 }
    ensures { (result ≡ size_of s.now) × (result ≤ 2833305) }
{
    let a = digit(s[0]);
    let b = digit(s[1]);
    let c = digit(s[2]);
    let d = digit(s[3]);
    let e = digit(s[4]);
    (((a * 10 + b) * 10 + c) * 10 + d) * 10 + e
}

fn judge(stdout: Stdout, input: &[u8], want: &[u8]) -> bool
    ensures { result ≡ same (answer input.now) want.now }
{
    let mut out = [0u8; unpatch_text::ROOM];
    let n = unpatch_text::unpatch(input, &mut out);
    let ok = check::same(&out[..n], want);
    if !ok {
        let _ = stdout.write_all(b"not answered so: ");
        let _ = stdout.write_all(input);
    }
    ok
}

fn cut_short(stdout: Stdout, text: &[u8]) -> Step
    ensures { result ≡ unread text.now }
{
    let _ = stdout.write_all(b"no record: ");
    let _ = stdout.write_all(text);
    Step {
        len: text.len(),
        same: false,
    }
}

pub(crate) fn first(stdout: Stdout, text: &[u8]) -> Step
    requires { 0 < length text.now }
    ensures { (result ≡ step_of text.now) × (0 < result.len) × (result.len ≤ length text.now) }
{
    if text.len() < 12 {
        return cut_short(stdout, text);
    }
    let n = size(&text[0..5]);
    let m = size(&text[6..11]);
    if text.len() - 12 < n + m {
        return cut_short(stdout, text);
    }
    let mid = 12 + n;
    let end = mid + m;
    Step {
        len: end,
        same: judge(stdout, &text[12..mid], &text[mid..end]),
    }
}
