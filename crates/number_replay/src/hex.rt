// Numbers in lower-case hex digits. What is no such number gives `None`.
ghost use Rattle.std.specs.Prelude.{◌≡◌, ◌≤◌, length};
ghost use Rattle.number_replay.specs.Hex.{digit_of, word_of};

fn digit(b: u8) -> Option<u32>
    ensures { result ≡ digit_of b }
{
    match b {
        b'0'..=b'9' => Some((b - b'0') as u32),
        b'a'..=b'f' => Some((b - b'a') as u32 + 10),
        _ => None,
    }
}

pub(crate) fn read_hex(s: &[u8]) -> Option<u32>
    requires { length s.now ≤ 8 }
    ensures { result ≡ word_of s.now }
{
    let mut n: u32 = 0;
    for b in s {
        let d = digit(*b)?;
        n = n * 16 + d;
    }
    Some(n)
}
