// The lines of settings and size, and the fields of any line. What is outside the form gives `None`.
ghost use Rattle.std.specs.Prelude.{◌≡◌, ◌≤◌, length};
ghost use Rattle.unpatch_form.specs.Words.{behind as Words·behind};
ghost use Rattle.unpatch_form.specs.Form as Form;
ghost use Rattle.unpatch_form.specs.Form.{fields};
ghost use Rattle.unpatch_form.specs.inner.Steps.{value_of, fields_from};

use crate::decimal::decimal;
use crate::scan::{find, is_word};

// Where the fields behind the word w begin, which is the first of several.
pub fn behind(line: &[u8], w: &[u8]) -> Option<usize>
    ensures { (fields_from result line.now ≡ Words·behind w.now (fields line.now)) × (value_of result ≤ length line.now) }
{
    let e = find(line, b'\t');
    if e == line.len() {
        return None;
    }
    if !is_word(&line[..e], w) {
        return None;
    }
    Some(e + 1)
}

fn two(s: &[u8]) -> Option<(usize, usize)>
    ensures { result ≡ Form.two (fields s.now) }
{
    let e = find(s, b'\t');
    if e == s.len() {
        return None;
    }
    let a = decimal(&s[..e], 64)?;
    let next = e + 1;
    let b = decimal(&s[next..], 64)?;
    Some((a, b))
}

fn three(s: &[u8]) -> Option<(usize, usize, usize)>
    ensures { result ≡ Form.three (fields s.now) }
{
    let e = find(s, b'\t');
    if e == s.len() {
        return None;
    }
    let a = decimal(&s[..e], 64)?;
    let next = e + 1;
    let (b, c) = two(&s[next..])?;
    Some((a, b, c))
}

// Patch, merge, image size.
pub fn vision(line: &[u8]) -> Option<(usize, usize, usize)>
    ensures { result ≡ Form.read_vision line.now }
{
    let at = behind(line, b"vision")?;
    let (p, m, n) = three(&line[at..])?;
    if 64 < p * m {
        return None;
    }
    Some((p, m, n))
}

// Height, width.
pub fn picture(line: &[u8]) -> Option<(usize, usize)>
    ensures { result ≡ Form.read_picture line.now }
{
    let at = behind(line, b"picture")?;
    two(&line[at..])
}
