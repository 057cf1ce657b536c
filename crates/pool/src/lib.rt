// A pool of token vectors: up to 64 results in one lent slice, each under the number of its sweep.
#![tactic(auto)]

mod keys;
mod slice;

ghost use Rattle.std.specs.Prelude.{◌≡◌, true, false, length};
ghost use Rattle.pool_books.specs.Book as B;
ghost use Rattle.pool_books.specs.Book.{entries, well_made, end_of, has, key_of};
ghost use Rattle.pool.specs.Pool.{new_pool, pooled, add_answer, add_slice, find_answer, drop_answer};

use crate::keys::leave_out;
use crate::slice::{slide, store};
use picture_limits::Refusal;
use pool_books::{Held, Place, Pool, scan};

// An empty pool for a slice of `len` floats.
pub fn new(len: usize) -> Pool
    ensures { result ≡ new_pool len }
{
    let none = Held {
        key: 0,
        start: 0,
        len: 0,
    };
    Pool {
        len,
        count: 0,
        held: [none; 64],
    }
}

// What add does with a pool for this slice that does not hold the key; it holds `sum` floats, the last of them before `end`.
fn add_new(
    p: &mut Pool,
    s: &mut [f32],
    key: u64,
    vectors: &[f32],
    sum: usize,
    end: usize,
) -> Result<(), Refusal>
    requires { (well_made p.old (length s.old) ≡ true) × (sum ≡ B.floats (entries p.old)) × (end ≡ end_of 0 (entries p.old)) × (has key_of key (entries p.old) ≡ false) × (length p.old.held ≡ 64) }
    ensures answer { pooled result p.new ≡ add_answer p.old s.old key vectors.now }
    ensures output { s.new ≡ add_slice p.old s.old key vectors.now }
{
    let n = vectors.len();
    if n == 0 {
        return Err(Refusal::NoVectors);
    }
    if (64 <= p.count) | (s.len() - sum < n) {
        return Err(Refusal::PoolFull);
    }
    if n <= s.len() - end {
        store(p, s, end, key, vectors);
        return Ok(());
    }
    slide(p, s);
    store(p, s, sum, key, vectors);
    Ok(())
}

// Holds the vectors under the key, behind the last of the held results. Where there is no room behind it, but room enough in
// all, the held results are slid down first. Where it is refused, the pool is as it was.
pub fn add(p: &mut Pool, s: &mut [f32], key: u64, vectors: &[f32]) -> Result<(), Refusal>
    ensures answer { pooled result p.new ≡ add_answer p.old s.old key vectors.now }
    ensures output { s.new ≡ add_slice p.old s.old key vectors.now }
{
    let Some(books) = scan(p, s.len(), key) else {
        return Err(Refusal::PoolSlice);
    };
    if books.place < p.count {
        return Err(Refusal::KeyHeld);
    }
    add_new(p, s, key, vectors, books.floats, books.end)
}

// Where the vectors of the key stand.
pub fn find(p: &Pool, s: &[f32], key: u64) -> Result<Place, Refusal>
    ensures { result ≡ find_answer p.now (length s.now) key }
{
    match scan(p, s.len(), key) {
        None => Err(Refusal::PoolSlice),
        Some(books) => {
            if p.count <= books.place {
                return Err(Refusal::KeyUnknown);
            }
            Ok(Place {
                start: books.start,
                len: books.len,
            })
        }
    }
}

// Holds the key no longer. No float is moved: its room is used again when an add needs it. Where it is refused, the pool is as
// it was.
pub fn drop_key(p: &mut Pool, s: &[f32], key: u64) -> Result<(), Refusal>
    ensures { pooled result p.new ≡ drop_answer p.old (length s.now) key }
{
    let Some(books) = scan(p, s.len(), key) else {
        return Err(Refusal::PoolSlice);
    };
    if books.place < p.count {
        leave_out(p, books.place);
        return Ok(());
    }
    Err(Refusal::KeyUnknown)
}
