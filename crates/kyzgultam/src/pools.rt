// A pool of token vectors in one lent slice. Its bookkeeping goes in and comes back as it is, so it has no struct of its own here.
ghost use Rattle.std.specs.Prelude.{◌≡◌, length};
ghost use Rattle.pool.specs.Pool as P;
ghost use Rattle.pool.specs.Pool.{new_pool, add_answer, add_slice, find_answer, drop_answer};
ghost use Rattle.kyzgultam.specs.Face.{pool_report, pool_place};

use picture_limits::Refusal;
use pool_books::Pool;

// The pool after the call: the one that was lent, where it was refused.
#[repr(C)]
#[derive(Drop)]
pub struct PoolReport {
    pub number: u32,
    pub pool: Pool,
}

// Where the vectors stand in the slice.
#[repr(C)]
#[derive(Drop)]
pub struct PoolPlace {
    pub number: u32,
    pub start: usize,
    pub len: usize,
}

fn number(answer: Result<(), Refusal>) -> u32
    ensures { result ≡ P.number answer }
{
    match answer {
        Ok(()) => 0,
        Err(r) => u32::from(r),
    }
}

#[unsafe(no_mangle)]
pub extern "C" fn kz_pool_new(len: usize) -> Pool
    ensures { result ≡ new_pool len }
{
    pool::new(len)
}

#[unsafe(no_mangle)]
pub extern "C" fn kz_pool_add(p: Pool, slice: &mut [f32], key: u64, vectors: &[f32]) -> PoolReport
    ensures answer { result ≡ pool_report (add_answer p slice.old key vectors.now) }
    ensures output { slice.new ≡ add_slice p slice.old key vectors.now }
{
    let mut pool = p;
    let answer = pool::add(&mut pool, slice, key, vectors);
    PoolReport {
        number: number(answer),
        pool,
    }
}

#[unsafe(no_mangle)]
pub extern "C" fn kz_pool_find(p: Pool, slice: &[f32], key: u64) -> PoolPlace
    ensures { result ≡ pool_place (find_answer p (length slice.now) key) }
{
    match pool::find(&p, slice, key) {
        Ok(place) => PoolPlace {
            number: 0,
            start: place.start,
            len: place.len,
        },
        Err(r) => PoolPlace {
            number: u32::from(r),
            start: 0,
            len: 0,
        },
    }
}

#[unsafe(no_mangle)]
pub extern "C" fn kz_pool_drop(p: Pool, slice: &[f32], key: u64) -> PoolReport
    ensures { result ≡ pool_report (drop_answer p (length slice.now) key) }
{
    let mut pool = p;
    let answer = pool::drop_key(&mut pool, slice, key);
    PoolReport {
        number: number(answer),
        pool,
    }
}
