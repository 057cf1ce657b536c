// The bookkeeping of a pool, and one look at it: whether it is one for the slice, and where a key stands.
#![tactic(auto)]

ghost use Rattle.std.specs.Prelude.{◌≡◌, length, IsSome};
ghost use Rattle.pool_books.specs.inner.Place.{books_of};

// A key, and the place of its vectors in the slice.
#[repr(C)]
#[derive(Clone, Copy)]
pub struct Held {
    pub key: u64,
    pub start: usize,
    pub len: usize,
}

// How long the slice is that the pool was made for, and what is held in it: the first `count`, in the order of adding.
#[repr(C)]
#[derive(Clone, Copy)]
pub struct Pool {
    pub len: usize,
    pub count: usize,
    pub held: [Held; 64],
}

// Where the vectors of a key stand in the slice.
#[derive(Clone, Copy)]
pub struct Place {
    pub start: usize,
    pub len: usize,
}

// What a look at the bookkeeping of a pool for this slice finds: the floats that it holds, where the last result ends, and
// which of the results has the key, as many as there are where none has it, with its place in the slice.
#[derive(Clone, Copy)]
pub struct Books {
    pub floats: usize,
    pub end: usize,
    pub place: usize,
    pub start: usize,
    pub len: usize,
}

// Where the key stands in p, if p is a pool for a slice of n floats. That there is room for 64 is of the type.
pub fn scan(p: &Pool, n: usize, key: u64) -> Option<Books>
    ensures books { result ≡ books_of p.now n key }
    ensures whole { IsSome result → length p.now.held ≡ 64 }
{
    let count = p.count;
    if (p.len != n) | (64 < count) {
        return None;
    }
    let mut floats = 0usize;
    let mut end = 0usize;
    for i in 0..count {
        let h = p.held[i];
        if h.start < end {
            return None;
        }
        end = h.start.checked_add(h.len)?;
        floats += h.len;
    }
    if n < end {
        return None;
    }
    for j in 0..count {
        let h = p.held[j];
        if h.key == key {
            return Some(Books {
                floats,
                end,
                place: j,
                start: h.start,
                len: h.len,
            });
        }
    }
    Some(Books {
        floats,
        end,
        place: count,
        start: 0,
        len: 0,
    })
}
