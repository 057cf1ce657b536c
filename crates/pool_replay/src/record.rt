// One record: whether its call answers as stored.
ghost use Rattle.std.specs.Prelude.{◌≡◌, ◌<◌};
ghost use Rattle.pool_replay.specs.Record.{same_as, place_of, differs, told_of, judged_in, slice_in};

use crate::run::Ran;
use pool_books::Pool;
use replay::hash::hash_floats;
use replay::line::read_line;
use std::io::Stdout;

// What a call answered, and the hash of the slice afterwards.
#[derive(Clone, Copy)]
pub struct Told {
    pub number: usize,
    pub count: usize,
    pub start: usize,
    pub len: usize,
    pub cells: usize,
}

// Where a call is counted, and the pool after it.
#[derive(Drop)]
pub struct Judged {
    pub place: usize,
    pub pool: Pool,
}

// Whether a call answers as the record says.
fn same(m: Told, v: &[usize; 10]) -> bool
    ensures { result ≡ same_as m v.now }
{
    (m.number == v[5]) & (m.count == v[6]) & (m.start == v[7]) & (m.len == v[8]) & (m.cells == v[9])
}

// Where a call is counted: 0 first, then 23 to 27, and last what differs.
fn place(m: Told, v: &[usize; 10]) -> usize
    ensures { (result ≡ place_of m v.now) × (result < 7) }
{
    if same(m, v) {
        if m.number == 0 {
            return 0;
        }
        if (23 <= m.number) & (m.number <= 27) {
            return m.number - 22;
        }
    }
    6
}

fn put(stdout: Stdout, x: usize) {
    let _ = print!(stdout; "{x} ");
}

// Writes what ours are where they differ from the line's.
fn report(stdout: Stdout, p: usize, m: Told, line: &[u8]) {
    if p == 6 {
        let _ = stdout.write_all(b"ours ");
        put(stdout, m.number);
        put(stdout, m.count);
        put(stdout, m.start);
        put(stdout, m.len);
        put(stdout, m.cells);
        let _ = stdout.write_all(b"for ");
        let _ = stdout.write_all(line);
    }
}

fn bad(stdout: Stdout, line: &[u8]) -> usize
    ensures { result ≡ differs }
{
    let _ = stdout.write_all(b"no record: ");
    let _ = stdout.write_all(line);
    6
}

fn tell(ran: Ran, cells: usize) -> Told
    ensures { result ≡ told_of ran cells }
{
    let pool = ran.pool;
    Told {
        number: ran.number,
        count: pool.count,
        start: ran.start,
        len: ran.len,
        cells,
    }
}

// The pool and the slice are those that the lines before have left.
pub(crate) fn judge(stdout: Stdout, p: Pool, s: &mut [f32], line: &[u8]) -> Judged
    ensures answer { (result ≡ judged_in p s.old line.now) × (result.place < 7) }
    ensures output { s.new ≡ slice_in p s.old line.now }
{
    let mut v = [0usize; 10];
    if !read_line(line, &mut v) {
        return Judged {
            place: bad(stdout, line),
            pool: p,
        };
    }
    let ran = crate::run::call(p, s, &v);
    let m = tell(ran, hash_floats(s) as usize);
    let at = place(m, &v);
    report(stdout, at, m, line);
    let after = ran.pool;
    Judged {
        place: at,
        pool: after,
    }
}
