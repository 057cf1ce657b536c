// Where a byte stands, and whether a part is a word.
ghost use Rattle.std.specs.Prelude.{◌≡◌, ◌≤◌, length};
ghost use Rattle.unpatch_form.specs.Words.{same};
ghost use Rattle.unpatch_form.specs.inner.Steps.{until};

// The index of the first b, or the length where there is none.
pub fn find(s: &[u8], b: u8) -> usize
    ensures { (result ≡ until b s.now) × (result ≤ length s.now) }
{
    for (i, x) in s.iter().enumerate() {
        if *x == b {
            return i;
        }
    }
    s.len()
}

pub(crate) fn is_word(s: &[u8], w: &[u8]) -> bool
    ensures { result ≡ same s.now w.now }
{
    s == w
}
