// Numbers in decimal digits, below 2^64. What is no such number gives `None`.
ghost use Rattle.std.specs.Prelude.{◌≡◌};
ghost use Rattle.replay.specs.Decimal.{push, number_of};

// The number whose last digit is b, and whose others are those of n.
fn pushed(n: usize, b: u8) -> Option<usize>
    ensures { result ≡ push n b }
{
    let d = b.checked_sub(b'0')?;
    if 9 < d {
        return None;
    }
    n.checked_mul(10)?.checked_add(usize::from(d))
}

pub(crate) fn read_decimal(s: &[u8]) -> Option<usize>
    ensures { result ≡ number_of s.now }
{
    if s.is_empty() {
        return None;
    }
    let mut n: usize = 0;
    for b in s {
        n = pushed(n, *b)?;
    }
    Some(n)
}
