// Lists of plain digits, as the shapes and the offsets of a header are.
#![tactic(auto)]

ghost use Rattle.std.specs.Prelude.{◌≡◌, List, [], ◌∷◌, ◌++◌, ℕ, ◌*◌, ◌<◌, drop};
ghost use Rattle.json_lists.specs.Lists.{held, sums_of, said_of};
ghost use Rattle.json_lists.specs.inner.Bytes.{awaited, numbers_from, list_at};

use json_grammar::scan::{blank, digits};
use json_members::size::read_size;
use json_read::value::{Next, part};

// What is said of some numbers: how many they are, the first two of them, 0 where there is none, and their product, 0 where it
// is above 2^64 - 1. A product that has passed the limit and one that has a factor 0 go on alike, so 0 stands for both.
#[derive(Clone, Copy, PartialEq, Eq, Debug)]
pub struct Sizes {
    pub count: usize,
    pub first: u64,
    pub second: u64,
    pub product: u64,
}

// What is said of no numbers.
const NO_NUMBERS: Sizes = Sizes {
    count: 0,
    first: 0,
    second: 0,
    product: 1,
};

// The product, or 0 where it is above 2^64 - 1.
fn times(a: u64, b: u64) -> u64
    ensures { result ≡ held (a * b) }
{
    a.checked_mul(b).unwrap_or(0)
}

// What is said of some numbers and n behind them.
fn with_number(t: Sizes, n: u64) -> Sizes
    requires { t.count < 0xFFFFFFFFFFFFFFFF }
    ensures { (ns : List ℕ) → t ≡ sums_of ns → result ≡ sums_of (ns ++ (n ∷ [])) }
{
    Sizes {
        count: t.count + 1,
        first: if t.count == 0 { n } else { t.first },
        second: if t.count == 1 { n } else { t.second },
        product: times(t.product, n),
    }
}

// Numbers with commas between them and a bracket behind: from `at` on a number is awaited.
fn numbers_from(s: &[u8], at: usize) -> Option<Sizes>
    ensures { result ≡ said_of (numbers_from awaited (drop at s.now)) }
{
    let mut t = NO_NUMBERS;
    // A number has any number of bytes, so the place goes on to what is behind it and its comma.
    let mut i = at;
    while i < s.len() {
        let v = blank(s, i);
        let n = read_size(s, v)?;
        t = with_number(t, n);
        match part(s, digits(s, v), b']') {
            Ok(Next::More(j)) => {
                i = j;
            }
            Ok(Next::Closed(_)) => {
                return Some(t);
            }
            Err(_) => {
                return None;
            }
        }
    }
    None
}

// The list that begins at `at`: none where it is anything but a list of plain digits of at most 2^64 - 1.
pub fn read_sizes(s: &[u8], at: usize) -> Option<Sizes>
    ensures { result ≡ list_at (drop at s.now) }
{
    if s.len() <= at {
        return None;
    }
    if s[at] != b'[' {
        return None;
    }
    let i = blank(s, at + 1);
    if s.len() <= i {
        return None;
    }
    if s[i] == b']' {
        return Some(NO_NUMBERS);
    }
    numbers_from(s, i)
}
