// One record: whether each of its calls answers as the Rust.
ghost use Rattle.std.specs.Prelude.{◌≡◌, ◌<◌};
ghost use Rattle.picture_replay.specs.Record.{made_place, back_place, neither, small_of, places_of};

use crate::run::{Back, Made, ROOM};
use replay::line::read_line;
use replay::marks::{MARKS, fill_floats};
use std::io::Stdout;

// Where a record's calls are counted: each by its number, past these where it differs, and last of all 19.
#[derive(Clone, Copy)]
pub struct Places {
    pub first: usize,
    pub second: usize,
}

fn made_place(m: Made, v: &[usize; 30]) -> usize
    ensures { (result ≡ made_place m v.now) × (result < 8) }
{
    let same = (m.number == v[8])
        & (m.grid_h == v[9])
        & (m.grid_w == v[10])
        & (m.floats == v[11])
        & (m.hash == v[12]);
    if same {
        if m.number < 6 {
            return m.number;
        }
        if m.number == 19 {
            return 7;
        }
    }
    6
}

fn back_place(b: Back, v: &[usize; 30]) -> usize
    ensures { (result ≡ back_place b v.now) × (result < 11) }
{
    let same = (b.number == v[19]) & (b.height == v[20]) & (b.width == v[21]) & (b.hash == v[22]);
    if same {
        if b.number < 9 {
            return b.number;
        }
        if b.number == 19 {
            return 10;
        }
    }
    9
}

fn put(stdout: Stdout, x: usize) {
    let _ = print!(stdout; "{x} ");
}

// Writes what ours are where they differ from the line's.
fn report(stdout: Stdout, p: Places, m: Made, b: Back, line: &[u8]) {
    if (p.first == 6) | (p.second == 9) {
        let _ = stdout.write_all(b"ours ");
        put(stdout, m.number);
        put(stdout, m.grid_h);
        put(stdout, m.grid_w);
        put(stdout, m.floats);
        put(stdout, m.hash);
        let _ = stdout.write_all(b"and ");
        put(stdout, b.number);
        put(stdout, b.height);
        put(stdout, b.width);
        put(stdout, b.hash);
        let _ = stdout.write_all(b"for ");
        let _ = stdout.write_all(line);
    }
}

fn bad(stdout: Stdout, line: &[u8]) -> Places
    ensures { result ≡ neither }
{
    let _ = stdout.write_all(b"no record: ");
    let _ = stdout.write_all(line);
    Places {
        first: 6,
        second: 9,
    }
}

// Whether the lengths of a record fit the buffers.
fn small(v: &[usize; 30]) -> bool
    ensures { result ≡ small_of v.now }
{
    (v[5] <= ROOM) & (v[6] <= ROOM) & (v[15] <= ROOM) & (v[16] <= ROOM)
}

pub(crate) fn judge(stdout: Stdout, line: &[u8]) -> Places
    ensures { (result ≡ places_of line.now) × (result.first < 8) × (result.second < 11) }
{
    let mut v = [0usize; 30];
    if !read_line(line, &mut v) {
        return bad(stdout, line);
    }
    if !small(&v) {
        return bad(stdout, line);
    }
    let mut cells = [0.0f32; ROOM];
    fill_floats(MARKS, &mut cells);
    let m = crate::run::first(&v, &mut cells);
    let b = crate::run::second(&v, &mut cells);
    let p = Places {
        first: made_place(m, &v),
        second: back_place(b, &v),
    };
    report(stdout, p, m, b, line);
    p
}
