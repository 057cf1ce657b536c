// Values, lists and objects: they read each other, with less input and fewer levels left each time.
ghost use Rattle.std.specs.Prelude.{◌≡◌, false, [], ◌∷◌, ◌+◌, ◌<◌, length, get_or};
ghost use Rattle.json_grammar.specs.Judge.{Judged};
ghost use Rattle.json_grammar.specs.inner.Machine as M;
ghost use Rattle.json_grammar.specs.inner.Steps.{is_blank, Lexes, Reads};
ghost use Rattle.json_read.specs.inner.Steps.{Parts};

use crate::number::{behind_minus, natural};
use crate::string::string;
use json_grammar::scan::{Fault, blank, word};

// What is behind an element or a member.
#[derive(Clone, Copy, PartialEq, Eq, Debug)]
pub enum Next {
    // behind a comma
    More(usize),
    // behind the bracket that closes
    Closed(usize),
}

// A value that is a number or a word, at its first byte.
fn scalar(s: &[u8], at: usize) -> Result<usize, Fault>
    requires { (at < length s.now) × (get_or s.now at 0 ≡ 0x5B → ⊥) × (get_or s.now at 0 ≡ 0x7B → ⊥) × (get_or s.now at 0 ≡ 0x22 → ⊥) × (is_blank (get_or s.now at 0) ≡ false) }
    ensures { Lexes s.now at (M.value ∷ []) result }
{
    let b = s[at];
    if b == b'f' {
        return word(s, at + 1, b"alse");
    }
    if b == b'n' {
        return word(s, at + 1, b"ull");
    }
    if b == b't' {
        return word(s, at + 1, b"rue");
    }
    natural(s, behind_minus(s, at))
}

// The comma or the bracket that closes; or else the place where neither stands.
pub fn part(s: &[u8], at: usize, close: u8) -> Result<Next, usize>
    ensures { Parts s.now at close result }
{
    let i = blank(s, at);
    if s.len() <= i {
        return Err(i);
    }
    let b = s[i];
    if b == b',' {
        return Ok(Next::More(i + 1));
    }
    if b == close {
        return Ok(Next::Closed(i + 1));
    }
    Err(i)
}

// A colon, behind blanks.
fn colon(s: &[u8], at: usize) -> Result<usize, Fault>
    ensures { Lexes s.now at (M.colon ∷ []) result }
{
    let i = blank(s, at);
    if s.len() <= i {
        return Err(Fault::Stop(i));
    }
    if s[i] != b':' {
        return Err(Fault::Stop(i));
    }
    Ok(i + 1)
}

// A member's name with its colon, behind blanks.
pub fn name(s: &[u8], at: usize) -> Result<usize, Fault>
    ensures { Lexes s.now at (M.key ∷ (M.colon ∷ [])) result }
{
    let i = blank(s, at);
    if s.len() <= i {
        return Err(Fault::Stop(i));
    }
    if s[i] != b'"' {
        return Err(Fault::Stop(i));
    }
    let n = string(s, i + 1)?;
    colon(s, n)
}

// A value behind blanks, with at most d brackets open.
#[cycle(read_list_read_object_read_value)]
pub fn read_value(s: &[u8], at: usize, d: usize) -> Result<usize, Fault>
    ensures { Reads s.now at d (M.value ∷ []) result }
{
    let i = blank(s, at);
    if s.len() <= i {
        return Err(Fault::Stop(i));
    }
    let b = s[i];
    if b == b'[' {
        if d == 0 {
            return Err(Fault::Deep(i));
        }
        return read_list(s, i + 1, d - 1);
    }
    if b == b'{' {
        if d == 0 {
            return Err(Fault::Deep(i));
        }
        return read_object(s, i + 1, d - 1);
    }
    if b == b'"' {
        // What is handed on whole is copied through memory: the place goes on by itself.
        let n = string(s, i + 1)?;
        return Ok(n);
    }
    scalar(s, i)
}

// Behind the bracket that opens it; d levels are left inside.
#[cycle(read_list_read_object_read_value)]
fn read_list(s: &[u8], at: usize, d: usize) -> Result<usize, Fault>
    ensures { Reads s.now at (d + 1) (M.first ∷ []) result }
{
    let mut i = blank(s, at);
    if i < s.len() {
        if s[i] == b']' {
            return Ok(i + 1);
        }
    }
    loop {
        let n = read_value(s, i, d)?;
        match part(s, n, b']') {
            Ok(Next::More(m)) => {
                i = m;
            }
            Ok(Next::Closed(m)) => {
                return Ok(m);
            }
            Err(m) => {
                return Err(Fault::Stop(m));
            }
        }
    }
}

// The same of an object.
#[cycle(read_list_read_object_read_value)]
fn read_object(s: &[u8], at: usize, d: usize) -> Result<usize, Fault>
    ensures { Reads s.now at (d + 1) (M.first_member ∷ []) result }
{
    let mut i = blank(s, at);
    if i < s.len() {
        if s[i] == b'}' {
            return Ok(i + 1);
        }
    }
    loop {
        let k = name(s, i)?;
        let n = read_value(s, k, d)?;
        match part(s, n, b'}') {
            Ok(Next::More(m)) => {
                i = m;
            }
            Ok(Next::Closed(m)) => {
                return Ok(m);
            }
            Err(m) => {
                return Err(Fault::Stop(m));
            }
        }
    }
}

// A whole text, with at most d brackets open.
pub fn read_text(s: &[u8], d: usize) -> Result<usize, Fault>
    ensures { Judged d s.now result }
{
    let n = read_value(s, 0, d)?;
    let e = blank(s, n);
    if e < s.len() {
        return Err(Fault::Stop(e));
    }
    Ok(e)
}
