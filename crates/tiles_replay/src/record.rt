// One record: whether each of its calls answers as the Rust.
ghost use Rattle.std.specs.Prelude.{◌≡◌, ◌≤◌, ◌<◌};
ghost use Rattle.tiles_replay.specs.Record.{same_as, place_of, neither, small_of, places_of};

use crate::run::{ROOM, Told};
use replay::line::read_line;
use replay::marks::{MARKS, fill_floats};
use std::io::Stdout;

// Where a record's calls are counted: each by its number, past these where it differs, and last of all 19 and 20.
#[derive(Clone, Copy)]
pub struct Places {
    pub first: usize,
    pub second: usize,
}

// Whether a call answers as the record says from `at` on.
fn same(m: Told, v: &[usize; 39], at: usize) -> bool
    requires { at ≤ 30 }
    ensures { result ≡ same_as m v.now at }
{
    (m.number == v[at])
        & (m.grid_h == v[at + 1])
        & (m.grid_w == v[at + 2])
        & (m.floats == v[at + 3])
        & (m.top == v[at + 4])
        & (m.left == v[at + 5])
        & (m.height == v[at + 6])
        & (m.width == v[at + 7])
        & (m.hash == v[at + 8])
}

fn place(m: Told, v: &[usize; 39], at: usize) -> usize
    requires { at ≤ 30 }
    ensures { (result ≡ place_of m v.now at) × (result < 12) }
{
    if same(m, v, at) {
        if m.number < 9 {
            return m.number;
        }
        if m.number == 19 {
            return 10;
        }
        if m.number == 20 {
            return 11;
        }
    }
    9
}

fn put(stdout: Stdout, x: usize) {
    let _ = print!(stdout; "{x} ");
}

fn put_told(stdout: Stdout, m: Told) {
    put(stdout, m.number);
    put(stdout, m.grid_h);
    put(stdout, m.grid_w);
    put(stdout, m.floats);
    put(stdout, m.top);
    put(stdout, m.left);
    put(stdout, m.height);
    put(stdout, m.width);
    put(stdout, m.hash);
}

// Writes what ours are where they differ from the line's.
fn report(stdout: Stdout, p: Places, m: Told, b: Told, line: &[u8]) {
    if (p.first == 9) | (p.second == 9) {
        let _ = stdout.write_all(b"ours ");
        put_told(stdout, m);
        let _ = stdout.write_all(b"and ");
        put_told(stdout, b);
        let _ = stdout.write_all(b"for ");
        let _ = stdout.write_all(line);
    }
}

fn bad(stdout: Stdout, line: &[u8]) -> Places
    ensures { result ≡ neither }
{
    let _ = stdout.write_all(b"no record: ");
    let _ = stdout.write_all(line);
    Places {
        first: 9,
        second: 9,
    }
}

// Whether the lengths of a record fit the buffers.
fn small(v: &[usize; 39]) -> bool
    ensures { result ≡ small_of v.now }
{
    (v[6] <= ROOM) & (v[7] <= ROOM) & (v[19] <= ROOM) & (v[20] <= ROOM)
}

pub(crate) fn judge(stdout: Stdout, line: &[u8]) -> Places
    ensures { (result ≡ places_of line.now) × (result.first < 12) × (result.second < 12) }
{
    let mut v = [0usize; 39];
    if !read_line(line, &mut v) {
        return bad(stdout, line);
    }
    if !small(&v) {
        return bad(stdout, line);
    }
    let mut cells = [0.0f32; ROOM];
    fill_floats(MARKS, &mut cells);
    let m = crate::run::first(&v, &mut cells);
    let b = crate::run::second(&v, &mut cells);
    let p = Places {
        first: place(m, &v, 9),
        second: place(b, &v, 23),
    };
    report(stdout, p, m, b, line);
    p
}
