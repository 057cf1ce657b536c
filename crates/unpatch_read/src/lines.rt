// The lines of the rows. What is outside the form gives `None`.
ghost use Rattle.std.specs.Prelude.{◌+◌, ◌*◌, ◌≤◌, length};
ghost use Rattle.unpatch_form.specs.Form as Form;
ghost use Rattle.unpatch_form.specs.Form.{fields};
ghost use Rattle.unpatch_read.specs.inner.Steps.{Written};

use crate::hex::hex_bytes;
use unpatch_form::decimal::decimal;
use unpatch_form::lines::behind;
use unpatch_form::scan::find;

// A row's index and bytes.
fn row_fields(s: &[u8], i: usize, rgb: &mut [u8], at: usize) -> Option<usize>
    requires { (2 * at + length s.now ≤ 2 * length rgb.old) × (i ≤ 65536) }
    ensures { Written result at rgb.old rgb.new (length s.now) (Form.row_fields i (fields s.now)) }
{
    let e = find(s, b'\t');
    if e == s.len() {
        return None;
    }
    let k = decimal(&s[..e], i)?;
    if k != i {
        return None;
    }
    let next = e + 1;
    hex_bytes(&s[next..], rgb, at)
}

fn row(line: &[u8], i: usize, rgb: &mut [u8], at: usize) -> Option<usize>
    requires { (2 * at + length line.now ≤ 2 * length rgb.old) × (i ≤ 65536) }
    ensures { Written result at rgb.old rgb.new (length line.now) (Form.read_row i line.now) }
{
    let k = behind(line, b"row")?;
    row_fields(&line[k..], i, rgb, at)
}

// The rows' bytes, joined, over the front of rgb, and how many they are.
pub(crate) fn rows(text: &[u8], rgb: &mut [u8]) -> Option<usize>
    requires { (length text.now ≤ 2 * length rgb.old) × (length text.now ≤ 49152) }
    ensures { Written result 0 rgb.old rgb.new (length text.now) (Form.read_rows 0 (Form.lines text.now)) }
{
    let mut from = 0usize;
    let mut i = 0usize;
    let mut n = 0usize;
    while from < text.len() {
        let to = from + find(&text[from..], b'\n');
        if to == text.len() {
            return None;
        }
        let k = row(&text[from..to], i, rgb, n)?;
        n += k;
        i += 1;
        from = to + 1;
    }
    Some(n)
}
