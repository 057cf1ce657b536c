// What an entry of the header says.
ghost use Rattle.std.specs.Prelude.{◌≡◌};
ghost use Rattle.json_members.specs.inner.Turns.{Finds, Gets};
ghost use Rattle.weights.specs.inner.Described.{Dtyped, Sized, made_of, Describes};

use json_lists::{Sizes, read_sizes};
use json_members::member::read_member;
use json_members::name::{name_is, noted};
use tensor_values::Kind;

// What is kept of an entry: `count` is the product of the shape, 0 where it is above 2^64 - 1.
#[derive(Clone, Copy, PartialEq, Eq, Debug)]
pub(crate) struct Described {
    pub(crate) kind: Kind,
    pub(crate) count: u64,
    pub(crate) begin: u64,
    pub(crate) end: u64,
}

// Why nothing is kept: there is no entry, it is damaged, or its dtype is none of the three.
#[derive(Clone, Copy, PartialEq, Eq, Debug)]
pub(crate) enum Undescribed {
    Missing,
    Damaged,
    Unknown,
}

// Behind the bracket that opens an object: where the value of its last member of the name w begins, 0 where there is none.
fn get_in(h: &[u8], at: usize, d: usize, w: &[u8]) -> usize
    ensures { Finds h.now at d w.now result }
{
    let mut found = 0usize;
    let mut i = at;
    loop {
        let Some(member) = read_member(h, i, d) else {
            return found;
        };
        found = noted(h, member.name, w, member.value, found);
        let Some(next) = member.next else {
            return found;
        };
        i = next;
    }
}

// The same of the value at `at`, which has at most 32 levels.
fn get(h: &[u8], at: usize, w: &[u8]) -> usize
    ensures { Gets h.now at 32 w.now result }
{
    if h.len() <= at {
        return 0;
    }
    if h[at] != b'{' {
        return 0;
    }
    get_in(h, at + 1, 31, w)
}

// The kind that the dtype at a place says; 0 is none.
fn dtype_at(h: &[u8], at: usize) -> Result<Kind, Undescribed>
    ensures { Dtyped h.now at result }
{
    if at == 0 {
        return Err(Undescribed::Damaged);
    }
    if h.len() <= at {
        return Err(Undescribed::Damaged);
    }
    if h[at] != b'"' {
        return Err(Undescribed::Damaged);
    }
    if name_is(h, at + 1, b"F32") {
        return Ok(Kind::F32);
    }
    if name_is(h, at + 1, b"BF16") {
        return Ok(Kind::BF16);
    }
    if name_is(h, at + 1, b"F16") {
        return Ok(Kind::F16);
    }
    Err(Undescribed::Unknown)
}

// The numbers of the list at a place; 0 is none.
fn sizes_at(h: &[u8], at: usize) -> Option<Sizes>
    ensures { Sized h.now at result }
{
    if at == 0 {
        return None;
    }
    read_sizes(h, at)
}

// Dtype, shape and exactly two offsets. What is damaged is told before a dtype that is unknown.
fn made(
    dtype: Result<Kind, Undescribed>,
    shape: Option<Sizes>,
    offsets: Option<Sizes>,
) -> Result<Described, Undescribed>
    ensures { result ≡ made_of dtype shape offsets }
{
    let Some(shape) = shape else {
        return Err(Undescribed::Damaged);
    };
    let Some(offsets) = offsets else {
        return Err(Undescribed::Damaged);
    };
    if offsets.count != 2 {
        return Err(Undescribed::Damaged);
    }
    let kind = dtype?;
    Ok(Described {
        kind,
        count: shape.product,
        begin: offsets.first,
        end: offsets.second,
    })
}

// The entry at a place; 0 is none.
pub(crate) fn describe(h: &[u8], at: usize) -> Result<Described, Undescribed>
    ensures { Describes h.now at result }
{
    if at == 0 {
        return Err(Undescribed::Missing);
    }
    let dtype = dtype_at(h, get(h, at, b"dtype"));
    let shape = sizes_at(h, get(h, at, b"shape"));
    let offsets = sizes_at(h, get(h, at, b"data_offsets"));
    made(dtype, shape, offsets)
}
