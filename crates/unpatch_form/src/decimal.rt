// Decimals without leading zeros. What is outside the form gives `None`.
ghost use Rattle.std.specs.Prelude.{◌≡◌};
ghost use Rattle.unpatch_form.specs.Decimal.{limited};
ghost use Rattle.unpatch_form.specs.inner.Limited.{limited_from};

// Digits of any number, and `most` is not passed: no sum is formed that would pass it.
fn digits(s: &[u8], most: usize) -> Option<usize>
    ensures { result ≡ limited_from most 0 s.now }
{
    let mut n = 0usize;
    for b in s {
        let digit = b.checked_sub(b'0')?;
        if 9 < digit {
            return None;
        }
        let d = usize::from(digit);
        let room = most.checked_sub(d)?;
        if room / 10 < n {
            return None;
        }
        n = n * 10 + d;
    }
    Some(n)
}

// A decimal of at most `most`.
pub fn decimal(s: &[u8], most: usize) -> Option<usize>
    ensures { result ≡ limited most s.now }
{
    if s.is_empty() {
        return None;
    }
    if s.len() == 1 {
        return digits(s, most);
    }
    if s[0] == b'0' {
        return None;
    }
    digits(s, most)
}
