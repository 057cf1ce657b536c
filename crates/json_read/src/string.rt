// Strings.
ghost use Rattle.std.specs.Prelude.{◌≡◌, [], ◌∷◌, ◌<◌, length, get_or};
ghost use Rattle.json_grammar.specs.inner.Machine as M;
ghost use Rattle.json_grammar.specs.inner.Steps.{Lexes};
ghost use Rattle.json_read.specs.inner.Steps.{Reaches, Char};
ghost use Rattle.json_read.specs.inner.Ended.{told};

use json_grammar::scan::Fault;

fn hex(s: &[u8], at: usize) -> Result<usize, Fault>
    ensures { Lexes s.now at (M.hex ∷ []) result }
{
    if s.len() <= at {
        return Err(Fault::Stop(at));
    }
    let b = s[at];
    if b < b'0' {
        return Err(Fault::Stop(at));
    }
    if b <= b'9' {
        return Ok(at + 1);
    }
    if b < b'A' {
        return Err(Fault::Stop(at));
    }
    if b <= b'F' {
        return Ok(at + 1);
    }
    if b < b'a' {
        return Err(Fault::Stop(at));
    }
    if b <= b'f' {
        return Ok(at + 1);
    }
    Err(Fault::Stop(at))
}

fn hex_pair(s: &[u8], at: usize) -> Result<usize, Fault>
    ensures { Lexes s.now at (M.hex ∷ (M.hex ∷ [])) result }
{
    let n = hex(s, at)?;
    hex(s, n)
}

fn hex_four(s: &[u8], at: usize) -> Result<usize, Fault>
    ensures { Lexes s.now at (M.hex ∷ (M.hex ∷ (M.hex ∷ (M.hex ∷ [])))) result }
{
    let n = hex_pair(s, at)?;
    hex_pair(s, n)
}

// Behind a reverse solidus.
fn escape(s: &[u8], at: usize) -> Result<usize, Fault>
    ensures { Lexes s.now at (M.escape ∷ []) result }
{
    if s.len() <= at {
        return Err(Fault::Stop(at));
    }
    let b = s[at];
    match b {
        b'"' | b'\\' | b'/' | b'b' | b'f' | b'n' | b'r' | b't' => Ok(at + 1),
        b'u' => hex_four(s, at + 1),
        _ => Err(Fault::Stop(at)),
    }
}

// Behind one byte from low to high.
fn one_of(s: &[u8], at: usize, low: u8, high: u8) -> Result<usize, Fault>
    ensures { Reaches s.now at low high [] result }
{
    if s.len() <= at {
        return Err(Fault::Stop(at));
    }
    let b = s[at];
    if b < low {
        return Err(Fault::Stop(at));
    }
    if high < b {
        return Err(Fault::Stop(at));
    }
    Ok(at + 1)
}

// The second byte of a character from low to high, and a third.
fn two_of(s: &[u8], at: usize, low: u8, high: u8) -> Result<usize, Fault>
    ensures { Reaches s.now at low high (M.range M.tail ∷ []) result }
{
    let n = one_of(s, at, low, high)?;
    one_of(s, n, 0x80, 0xBF)
}

fn three_of(s: &[u8], at: usize, low: u8, high: u8) -> Result<usize, Fault>
    ensures { Reaches s.now at low high (M.range M.tail ∷ (M.range M.tail ∷ [])) result }
{
    let n = two_of(s, at, low, high)?;
    one_of(s, n, 0x80, 0xBF)
}

// One character whose first byte is above ASCII.
fn wide(s: &[u8], at: usize) -> Result<usize, Fault>
    requires { (at < length s.now) × (0x7F < get_or s.now at 0) }
    ensures { Char s.now at result }
{
    let b = s[at];
    if b < 0xC2 {
        return Err(Fault::Stop(at));
    }
    if b <= 0xDF {
        return one_of(s, at + 1, 0x80, 0xBF);
    }
    if b == 0xE0 {
        return two_of(s, at + 1, 0xA0, 0xBF);
    }
    if b == 0xED {
        return two_of(s, at + 1, 0x80, 0x9F);
    }
    if b <= 0xEF {
        return two_of(s, at + 1, 0x80, 0xBF);
    }
    if b == 0xF0 {
        return three_of(s, at + 1, 0x90, 0xBF);
    }
    if b <= 0xF3 {
        return three_of(s, at + 1, 0x80, 0xBF);
    }
    if b == 0xF4 {
        return three_of(s, at + 1, 0x80, 0x8F);
    }
    Err(Fault::Stop(at))
}

// One character of a string, which is no quotation mark.
fn character(s: &[u8], at: usize) -> Result<usize, Fault>
    requires { (at < length s.now) × (get_or s.now at 0 ≡ 0x22 → ⊥) }
    ensures { Char s.now at result }
{
    let b = s[at];
    if b < 0x20 {
        return Err(Fault::Stop(at));
    }
    if b == b'\\' {
        return escape(s, at + 1);
    }
    if b <= 0x7F {
        return Ok(at + 1);
    }
    wide(s, at)
}

// Behind the quotation mark that opens it.
fn characters(s: &[u8], at: usize) -> Result<usize, Fault>
    ensures { Lexes s.now at (M.chars ∷ []) result }
{
    // A character has one byte or several, so the place goes on to where it ends.
    let mut i = at;
    while i < s.len() {
        if s[i] == b'"' {
            return Ok(i + 1);
        }
        i = character(s, i)?;
    }
    Err(Fault::Stop(i))
}

// The same in two words, which go in registers: a `Result` of a place or a fault has three, and goes through memory.
#[derive(Clone, Copy)]
enum Ended {
    Past(usize),
    Stop(usize),
    Deep(usize),
}

#[inline(never)]
fn string_end(s: &[u8], at: usize) -> Ended
    ensures { Lexes s.now at (M.chars ∷ []) (told result) }
{
    match characters(s, at) {
        Ok(n) => Ended::Past(n),
        Err(Fault::Stop(n)) => Ended::Stop(n),
        Err(Fault::Deep(n)) => Ended::Deep(n),
    }
}

// And as a `Result` again, at the caller.
#[inline(always)]
pub(crate) fn string(s: &[u8], at: usize) -> Result<usize, Fault>
    ensures { Lexes s.now at (M.chars ∷ []) result }
{
    match string_end(s, at) {
        Ended::Past(n) => Ok(n),
        Ended::Stop(n) => Err(Fault::Stop(n)),
        Ended::Deep(n) => Err(Fault::Deep(n)),
    }
}
