// The whole input. What is outside the form gives `None`.
ghost use Rattle.std.specs.Prelude.{◌≡◌, ◌*◌, ◌≤◌, length};
ghost use Rattle.unpatch_form.specs.Form as Form;
ghost use Rattle.unpatch_read.specs.Read.{reading, rows_of, filled};
ghost use Rattle.unpatch_read.specs.inner.Steps.{asked, bytes_read};

use crate::lines::rows;
use unpatch_form::lines::{picture, vision};
use unpatch_form::scan::find;

// What a text in the form says, but for the rows' bytes.
#[derive(Clone, Copy)]
pub struct Reading {
    pub patch: usize,
    pub merge: usize,
    pub image: usize,
    pub height: usize,
    pub width: usize,
    // how many bytes the rows have
    pub bytes: usize,
}

// What stands behind the first line, whose three numbers are given.
fn read_picture(
    patch: usize,
    merge: usize,
    image: usize,
    text: &[u8],
    rgb: &mut [u8],
) -> Option<Reading>
    requires { (length text.now ≤ 2 * length rgb.old) × (length text.now ≤ 49152) }
    ensures { (asked result rgb.new ≡ Form.pictured (patch, merge, image) (Form.lines text.now)) × (bytes_read result ≤ length rgb.new) }
{
    let e = find(text, b'\n');
    if e == text.len() {
        return None;
    }
    let (height, width) = picture(&text[..e])?;
    let next = e + 1;
    let bytes = rows(&text[next..], rgb)?;
    Some(Reading {
        patch,
        merge,
        image,
        height,
        width,
        bytes,
    })
}

// What the text says, with the rows' bytes over the front of rgb. A text has at most 48 KiB, 49,152 bytes.
fn read_text(text: &[u8], rgb: &mut [u8]) -> Option<Reading>
    requires { 49152 ≤ 2 * length rgb.old }
    ensures { (asked result rgb.new ≡ Form.form text.now) × (bytes_read result ≤ length rgb.new) }
{
    if 49152 < text.len() {
        return None;
    }
    let e = find(text, b'\n');
    if e == text.len() {
        return None;
    }
    let (patch, merge, image) = vision(&text[..e])?;
    let next = e + 1;
    read_picture(patch, merge, image, &text[next..], rgb)
}

fn bytes_read(r: Option<Reading>) -> usize
    ensures { result ≡ bytes_read r }
{
    r.map_or(0, |q| q.bytes)
}

// What the text says, with the rows' bytes over the front of rgb and zeros behind them. A byte takes two digits of a
// text, so half of its 48 KiB holds the rows of any.
pub fn read(text: &[u8], rgb: &mut [u8; 24576]) -> Option<Reading>
    ensures answer { result ≡ reading (Form.form text.now) }
    ensures bytes { rgb.new ≡ filled (rows_of (Form.form text.now)) }
{
    let found = read_text(text, rgb);
    for i in bytes_read(found)..24576 {
        rgb[i] = 0;
    }
    found
}
