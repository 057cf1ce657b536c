// A record's call. v holds its 10 numbers, in the order that main.rt lists.
ghost use Rattle.std.specs.Prelude.{◌≡◌, ◌++◌, ◌≤◌, length, drop};
ghost use Rattle.pool.specs.Pool as P;
ghost use Rattle.pool_replay.specs.Run.{at, lent_of, part_of, vectors_of, pooled, placed, plain, entered, ran_of, slice_of};

use picture_limits::Refusal;
use pool_books::{Held, Pool};
use replay::marks::fill_floats;

// The pool after a call, and what it answered.
#[derive(Clone, Copy)]
pub struct Ran {
    pub pool: Pool,
    pub number: usize,
    pub start: usize,
    pub len: usize,
}

fn number(answer: Result<(), Refusal>) -> usize
    ensures { result ≡ P.number answer }
{
    match answer {
        Ok(()) => 0,
        Err(r) => u32::from(r) as usize,
    }
}

fn done(pool: Pool) -> Ran
    ensures { result ≡ plain pool }
{
    Ran {
        pool,
        number: 0,
        start: 0,
        len: 0,
    }
}

// The part of a slice of `len` floats that is lent: all of it where more is asked for.
fn lent(n: usize, len: usize) -> usize
    ensures { (result ≡ lent_of n len) × (result ≤ len) }
{
    n.min(len)
}

fn add(p: Pool, s: &mut [f32], v: &[usize; 10]) -> Ran
    ensures answer { result ≡ pooled (P.add_answer p (part_of v.now s.old) (at v.now 2) (vectors_of v.now)) }
    ensures output { s.new ≡ P.add_slice p (part_of v.now s.old) (at v.now 2) (vectors_of v.now) ++ drop (lent_of (at v.now 1) (length s.old)) s.old }
{
    let mut vectors = [0.0f32; 512];
    fill_floats(v[4], &mut vectors);
    let n = lent(v[1], s.len());
    let m = lent(v[3], 512);
    let mut pool = p;
    let answer = pool::add(&mut pool, &mut s[..n], v[2] as u64, &vectors[..m]);
    Ran {
        pool,
        number: number(answer),
        start: 0,
        len: 0,
    }
}

fn find(p: Pool, s: &[f32], v: &[usize; 10]) -> Ran
    ensures { result ≡ placed p (P.find_answer p (length (part_of v.now s.now)) (at v.now 2)) }
{
    let n = lent(v[1], s.len());
    match pool::find(&p, &s[..n], v[2] as u64) {
        Ok(place) => Ran {
            pool: p,
            number: 0,
            start: place.start,
            len: place.len,
        },
        Err(r) => Ran {
            pool: p,
            number: u32::from(r) as usize,
            start: 0,
            len: 0,
        },
    }
}

fn drop_key(p: Pool, s: &[f32], v: &[usize; 10]) -> Ran
    ensures { result ≡ pooled (P.drop_answer p (length (part_of v.now s.now)) (at v.now 2)) }
{
    let n = lent(v[1], s.len());
    let mut pool = p;
    let answer = pool::drop_key(&mut pool, &s[..n], v[2] as u64);
    Ran {
        pool,
        number: number(answer),
        start: 0,
        len: 0,
    }
}

// Another entry of the bookkeeping.
fn entry(p: Pool, v: &[usize; 10]) -> Pool
    ensures { result ≡ entered p v.now }
{
    let held = Held {
        key: v[2] as u64,
        start: v[3],
        len: v[4],
    };
    let mut q = p;
    let i = v[1] % 64;
    q.held[i] = held;
    q
}

pub(crate) fn call(p: Pool, s: &mut [f32], v: &[usize; 10]) -> Ran
    ensures answer { result ≡ ran_of p s.old v.now }
    ensures output { s.new ≡ slice_of p s.old v.now }
{
    let what = v[0];
    if what == 0 {
        fill_floats(v[4], s);
        return done(pool::new(v[1]));
    }
    if what == 1 {
        return add(p, s, v);
    }
    if what == 2 {
        return find(p, s, v);
    }
    if what == 3 {
        return drop_key(p, s, v);
    }
    if what == 4 {
        let mut q = p;
        q.count = v[3];
        return done(q);
    }
    done(entry(p, v))
}
