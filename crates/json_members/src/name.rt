// Names, read after their escapes.
ghost use Rattle.std.specs.Prelude.{◌≡◌, cond, ◌+◌, ◌≤◌, ◌<◌, length, get_or, drop};
ghost use Rattle.json_members.specs.inner.Bytes as Bytes;
ghost use Rattle.json_members.specs.inner.Bytes.{four_of, code_of, name_is, behind_at};

fn hex_value(b: u8) -> usize
    ensures { (result ≡ Bytes.hex_value b) × (result ≤ 255) }
{
    if b < b'0' {
        return 0;
    }
    if b < 0x3A {
        return (b - 0x30) as usize;
    }
    if b < 0x47 {
        return (b - 0x37) as usize;
    }
    if b < 0x57 {
        return 0;
    }
    (b - 0x57) as usize
}

fn simple(b: u8) -> usize
    ensures { result ≡ Bytes.simple_of b }
{
    match b {
        b'b' => 0x08,
        b'f' => 0x0C,
        b'n' => 0x0A,
        b'r' => 0x0D,
        b't' => 0x09,
        _ => b as usize,
    }
}

fn four(s: &[u8], at: usize) -> usize
    ensures { result ≡ four_of (drop at s.now) }
{
    if s.len() <= at {
        return 256;
    }
    if s.len() - at < 4 {
        return 256;
    }
    let a = hex_value(s[at]);
    let b = hex_value(s[at + 1]);
    let c = hex_value(s[at + 2]);
    let d = hex_value(s[at + 3]);
    ((a * 16 + b) * 16 + c) * 16 + d
}

// The character's number, where it is below 0x80; else some number from 0x80 on.
pub fn code(s: &[u8], at: usize) -> usize
    ensures { result ≡ code_of (drop at s.now) }
{
    if s.len() <= at {
        return 256;
    }
    let b = s[at];
    if b != b'\\' {
        return b as usize;
    }
    let e = at + 1;
    if s.len() <= e {
        return 256;
    }
    let x = s[e];
    if x == b'u' {
        return four(s, e + 1);
    }
    simple(x)
}

// How many bytes the character has.
fn width(s: &[u8], at: usize) -> usize
    requires { at < length s.now }
    ensures { (result ≡ Bytes.width_of (get_or s.now at 0) (drop (at + 1) s.now)) × (1 ≤ result) × (result ≤ 6) }
{
    let b = s[at];
    if b == b'\\' {
        let e = at + 1;
        if s.len() <= e {
            return 2;
        }
        if s[e] == b'u' {
            return 6;
        }
        return 2;
    }
    if b < 0x80 {
        return 1;
    }
    if b < 0xE0 {
        return 2;
    }
    if b < 0xF0 {
        return 3;
    }
    4
}

// The place behind w, where a name has it from `at` on.
pub fn behind(s: &[u8], at: usize, w: &[u8]) -> Option<usize>
    ensures { result ≡ behind_at s.now at w.now }
{
    let mut i = at;
    for x in w {
        if s.len() <= i {
            return None;
        }
        if s[i] == b'"' {
            return None;
        }
        if code(s, i) != *x as usize {
            return None;
        }
        i += width(s, i);
    }
    Some(i)
}

// Whether the name behind a quotation mark is w.
pub fn name_is(s: &[u8], at: usize, w: &[u8]) -> bool
    ensures { result ≡ name_is w.now (drop at s.now) }
{
    let Some(i) = behind(s, at, w) else {
        return false;
    };
    if s.len() <= i {
        return false;
    }
    s[i] == b'"'
}

// The place of a value whose name is w, or the one found before.
pub fn noted(s: &[u8], name: usize, w: &[u8], value: usize, found: usize) -> usize
    ensures { result ≡ cond (name_is w.now (drop name s.now)) value found }
{
    if name_is(s, name, w) {
        return value;
    }
    found
}
