// Numbers.
ghost use Rattle.std.specs.Prelude.{◌≡◌, true, [], ◌∷◌, ◌<◌, length, get_or};
ghost use Rattle.json_grammar.specs.inner.Machine as M;
ghost use Rattle.json_grammar.specs.inner.Steps.{is_digit, Lexes};
ghost use Rattle.json_read.specs.inner.Steps.{Minus, Whole};

use json_grammar::scan::{Fault, digits, is_digit, is_more};

// One digit or more.
fn digits_from_one(s: &[u8], at: usize) -> Result<usize, Fault>
    ensures { Lexes s.now at (M.range M.digit ∷ (M.digits ∷ [])) result }
{
    if s.len() <= at {
        return Err(Fault::Stop(at));
    }
    if !is_digit(s[at]) {
        return Err(Fault::Stop(at));
    }
    Ok(digits(s, at + 1))
}

fn fraction(s: &[u8], at: usize) -> Result<usize, Fault>
    ensures { Lexes s.now at (M.frac ∷ []) result }
{
    if s.len() <= at {
        return Ok(at);
    }
    if s[at] != b'.' {
        return Ok(at);
    }
    digits_from_one(s, at + 1)
}

// Behind the letter of an exponent.
fn signed(s: &[u8], at: usize) -> Result<usize, Fault>
    ensures { Lexes s.now at (M.signed ∷ []) result }
{
    if s.len() <= at {
        return Err(Fault::Stop(at));
    }
    let b = s[at];
    if b == b'-' {
        return digits_from_one(s, at + 1);
    }
    if b == b'+' {
        return digits_from_one(s, at + 1);
    }
    digits_from_one(s, at)
}

fn exponent(s: &[u8], at: usize) -> Result<usize, Fault>
    ensures { Lexes s.now at (M.exp ∷ []) result }
{
    if s.len() <= at {
        return Ok(at);
    }
    let b = s[at];
    if b == b'e' {
        return signed(s, at + 1);
    }
    if b == b'E' {
        return signed(s, at + 1);
    }
    Ok(at)
}

// Behind a number's digits, where more of it follows.
fn behind_digits(s: &[u8], at: usize) -> Result<usize, Fault>
    ensures { Lexes s.now at (M.frac ∷ (M.exp ∷ [])) result }
{
    let n = fraction(s, at)?;
    exponent(s, n)
}

// Behind a number's digits, the first of which stands at `at`.
fn whole(s: &[u8], at: usize) -> usize
    requires { (at < length s.now) × (is_digit (get_or s.now at 0) ≡ true) }
    ensures { Whole s.now at result }
{
    if s[at] == b'0' {
        return at + 1;
    }
    digits(s, at + 1)
}

// Behind the minus of a number, where it has one.
pub(crate) fn behind_minus(s: &[u8], at: usize) -> usize
    requires { at < length s.now }
    ensures { Minus s.now at result }
{
    if s[at] == b'-' {
        return at + 1;
    }
    at
}

// Behind a number's minus. Most numbers are plain digits, and these are done with here.
pub(crate) fn natural(s: &[u8], at: usize) -> Result<usize, Fault>
    ensures { Lexes s.now at (M.natural ∷ []) result }
{
    if s.len() <= at {
        return Err(Fault::Stop(at));
    }
    if !is_digit(s[at]) {
        return Err(Fault::Stop(at));
    }
    let n = whole(s, at);
    if s.len() <= n {
        return Ok(n);
    }
    if !is_more(s[n]) {
        return Ok(n);
    }
    behind_digits(s, n)
}
