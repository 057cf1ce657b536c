// Bytes as pairs of lower-case hex digits. What is no such pair gives `None`.
ghost use Rattle.std.specs.Prelude.{◌≡◌, ◌+◌, ◌*◌, ◌<◌, ◌≤◌, length};
ghost use Rattle.unpatch_form.specs.Hex.{hex_bytes, nibble as Hex·nibble, pair as Hex·pair};
ghost use Rattle.unpatch_read.specs.inner.Steps.{Written};

fn nibble(b: u8) -> Option<u8>
    ensures { result ≡ Hex·nibble b }
{
    match b {
        b'0'..=b'9' => Some(b - b'0'),
        b'a'..=b'f' => Some(b - b'a' + 10),
        _ => None,
    }
}

fn pair(a: u8, b: u8) -> Option<u8>
    ensures { result ≡ Hex·pair a b }
{
    let x = nibble(a)?;
    let y = nibble(b)?;
    Some(x * 16 + y)
}

// The bytes that s stands for, into rgb from `at` on, and how many they are.
pub(crate) fn hex_bytes(s: &[u8], rgb: &mut [u8], at: usize) -> Option<usize>
    requires { 2 * at + length s.now ≤ 2 * length rgb.old }
    ensures { Written result at rgb.old rgb.new (length s.now) (hex_bytes s.now) }
{
    if s.is_empty() {
        return None;
    }
    let half = s.len() / 2;
    if half * 2 != s.len() {
        return None;
    }
    for i in 0..half {
        rgb[at + i] = pair(s[i * 2], s[i * 2 + 1])?;
    }
    Some(half)
}
