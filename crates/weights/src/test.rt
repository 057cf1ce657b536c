// What a tensor is tried for: 16, 17 and 18.
ghost use Rattle.std.specs.Prelude.{◌≡◌, ◌≤◌};
ghost use Rattle.weights.specs.inner.Described.{misplaced_is, fails_damaged, fails_other, fails_misplaced};

use crate::entry::{Described, Undescribed};
use tensor_values::size_of;

// Offsets falling, past the data or of another length.
fn misplaced(d: Described, count: usize, bytes: usize) -> bool
    requires { count ≤ 67108864 }
    ensures { result ≡ misplaced_is bytes count d.begin d.end d.kind }
{
    if d.end < d.begin {
        return true;
    }
    if (bytes as u64) < d.end {
        return true;
    }
    d.end - d.begin != (count * size_of(d.kind)) as u64
}

pub(crate) fn is_damaged(d: Result<Described, Undescribed>) -> bool
    ensures { result ≡ fails_damaged d }
{
    match d {
        Err(Undescribed::Missing) => false,
        Err(Undescribed::Damaged) => true,
        Err(Undescribed::Unknown) => false,
        Ok(_) => false,
    }
}

pub(crate) fn is_other(d: Result<Described, Undescribed>, count: usize) -> bool
    ensures { result ≡ fails_other count d }
{
    match d {
        Err(Undescribed::Missing) => true,
        Err(Undescribed::Damaged) => false,
        Err(Undescribed::Unknown) => true,
        Ok(d) => d.count != count as u64,
    }
}

pub(crate) fn is_misplaced(d: Result<Described, Undescribed>, count: usize, bytes: usize) -> bool
    requires { count ≤ 67108864 }
    ensures { result ≡ fails_misplaced bytes count d }
{
    match d {
        Err(_) => false,
        Ok(d) => misplaced(d, count, bytes),
    }
}
