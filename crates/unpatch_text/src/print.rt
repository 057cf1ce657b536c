// The lines of the output, each written from a place on.
ghost use Rattle.std.specs.Prelude.{◌≡◌, ◌∷◌, ◌+◌, ◌*◌, ◌≤◌, ◌<◌, length};
ghost use Rattle.unpatch_text.specs.Print as Print;
ghost use Rattle.unpatch_text.specs.Print.{decimal_text, hex_text, refused_line, grid_line, row_line, row_lines};
ghost use Rattle.unpatch_text.specs.inner.Steps.{Wrote};

pub(crate) fn put_bytes(s: &[u8], at: usize, out: &mut [u8]) -> usize
    requires { at + length s.now ≤ length out.old }
    ensures { Wrote out.old out.new at s.now result }
{
    for i in 0..s.len() {
        out[at + i] = s[i];
    }
    at + s.len()
}

// A number's digits, the last behind those of the number without it.
fn put_decimal(n: usize, at: usize, out: &mut [u8]) -> usize
    requires { at + length (decimal_text n) ≤ length out.old }
    ensures { Wrote out.old out.new at (decimal_text n) result }
{
    if n < 10 {
        out[at] = b'0' + n as u8;
        return at + 1;
    }
    let e = put_decimal(n / 10, at, out);
    out[e] = b'0' + (n % 10) as u8;
    e + 1
}

fn glyph(d: u8) -> u8
    requires { d < 16 }
    ensures { result ≡ Print.glyph d }
{
    if d < 10 { b'0' + d } else { 87 + d }
}

fn put_hex(s: &[u8], at: usize, out: &mut [u8]) -> usize
    requires { at + 2 * length s.now ≤ length out.old }
    ensures { Wrote out.old out.new at (hex_text s.now) result }
{
    let mut o = at;
    for i in 0..s.len() {
        let b = s[i];
        out[o] = glyph(b / 16);
        out[o + 1] = glyph(b % 16);
        o += 2;
    }
    o
}

// A tab and a number.
fn put_field(n: usize, at: usize, out: &mut [u8]) -> usize
    requires { at + (1 + length (decimal_text n)) ≤ length out.old }
    ensures { Wrote out.old out.new at (9 ∷ decimal_text n) result }
{
    let e = put_bytes(b"\t", at, out);
    put_decimal(n, e, out)
}

pub(crate) fn put_refused(n: usize, out: &mut [u8]) -> usize
    requires { length (refused_line n) ≤ length out.old }
    ensures { Wrote out.old out.new 0 (refused_line n) result }
{
    let a = put_bytes(b"refused", 0, out);
    let b = put_field(n, a, out);
    put_bytes(b"\n", b, out)
}

pub(crate) fn put_grid(grid_h: usize, grid_w: usize, tokens: usize, out: &mut [u8]) -> usize
    requires { length (grid_line grid_h grid_w tokens) ≤ length out.old }
    ensures { Wrote out.old out.new 0 (grid_line grid_h grid_w tokens) result }
{
    let a = put_bytes(b"grid", 0, out);
    let b = put_field(grid_h, a, out);
    let c = put_field(grid_w, b, out);
    let d = put_field(tokens, c, out);
    put_bytes(b"\n", d, out)
}

fn put_row(y: usize, s: &[u8], at: usize, out: &mut [u8]) -> usize
    requires { at + length (row_line y s.now) ≤ length out.old }
    ensures { Wrote out.old out.new at (row_line y s.now) result }
{
    let a = put_bytes(b"row", at, out);
    let b = put_field(y, a, out);
    let c = put_bytes(b"\t", b, out);
    let d = put_hex(s, c, out);
    put_bytes(b"\n", d, out)
}

// h rows of n bytes each.
pub(crate) fn put_rows(h: usize, n: usize, s: &[u8], at: usize, out: &mut [u8]) -> usize
    requires { (h * n ≤ length s.now) × (at + length (row_lines h n s.now) ≤ length out.old) }
    ensures { Wrote out.old out.new at (row_lines h n s.now) result }
{
    let mut from = 0usize;
    let mut o = at;
    for y in 0..h {
        let to = from + n;
        o = put_row(y, &s[from..to], o, out);
        from = to;
    }
    o
}
