// Blanks, digits and words.
ghost use Rattle.std.specs.Prelude.{◌≡◌, [], ◌∷◌};
ghost use Rattle.json_grammar.specs.inner.Machine as M;
ghost use Rattle.json_grammar.specs.inner.Steps.{is_blank, is_digit, is_more, letters, Skips, Lexes, LexesTo};

// Why no text goes on at a byte.
#[derive(Clone, Copy, PartialEq, Eq, Debug)]
pub enum Fault {
    // no text agrees with the byte here, or with the end
    Stop(usize),
    // the bracket here opens a level too many
    Deep(usize),
}

// A chain of tests becomes one test of bits, which `matches!` does not.
fn is_blank(b: u8) -> bool
    ensures { result ≡ is_blank b }
{
    b == b' ' || b == b'\t' || b == b'\n' || b == b'\r'
}

pub fn is_digit(b: u8) -> bool
    ensures { result ≡ is_digit b }
{
    b'0' <= b && b <= b'9'
}

// Whether what follows a number's digits may begin so.
pub fn is_more(b: u8) -> bool
    ensures { result ≡ is_more b }
{
    matches!(b, b'.' | b'e' | b'E')
}

// Behind blanks.
pub fn blank(s: &[u8], at: usize) -> usize
    ensures { Skips s.now at result }
{
    for i in at..s.len() {
        if !is_blank(s[i]) {
            return i;
        }
    }
    at.max(s.len())
}

// Behind digits.
pub fn digits(s: &[u8], at: usize) -> usize
    ensures { LexesTo s.now at (M.digits ∷ []) result }
{
    for i in at..s.len() {
        if !is_digit(s[i]) {
            return i;
        }
    }
    at.max(s.len())
}

// Behind the word w, or the first place that does not agree with it.
pub fn word(s: &[u8], at: usize, w: &[u8]) -> Result<usize, Fault>
    ensures { Lexes s.now at (letters w.now) result }
{
    let mut i = at;
    for b in w {
        if s.len() <= i {
            return Err(Fault::Stop(i));
        }
        if s[i] != *b {
            return Err(Fault::Stop(i));
        }
        i += 1;
    }
    Ok(i)
}
