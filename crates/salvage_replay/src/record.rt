// One record: whether its call answers as the Rust.
ghost use Rattle.std.specs.Prelude.{◌≡◌, ◌<◌};
ghost use Rattle.salvage_replay.specs.Record.{same_as, place_of, differs, small_of, place_in};

use crate::run::{ROOM, Told};
use replay::line::read_line;
use std::io::Stdout;

// Whether a call answers as the record says.
fn same(m: Told, v: &[usize; 31]) -> bool
    ensures { result ≡ same_as m v.now }
{
    (m.patches == v[17])
        & (m.number == v[18])
        & (m.height == v[19])
        & (m.width == v[20])
        & (m.bad == v[21])
        & (m.bytes == v[22])
        & (m.entries == v[23])
}

// Where a call is counted: by its number, past these where it differs, and last of all 19 and 21.
fn place(m: Told, v: &[usize; 31]) -> usize
    ensures { (result ≡ place_of m v.now) × (result < 12) }
{
    if same(m, v) {
        if m.number < 9 {
            return m.number;
        }
        if m.number == 19 {
            return 10;
        }
        if m.number == 21 {
            return 11;
        }
    }
    9
}

fn put(stdout: Stdout, x: usize) {
    let _ = print!(stdout; "{x} ");
}

// Writes what ours are where they differ from the line's.
fn report(stdout: Stdout, p: usize, m: Told, line: &[u8]) {
    if p == 9 {
        let _ = stdout.write_all(b"ours ");
        put(stdout, m.patches);
        put(stdout, m.number);
        put(stdout, m.height);
        put(stdout, m.width);
        put(stdout, m.bad);
        put(stdout, m.bytes);
        put(stdout, m.entries);
        let _ = stdout.write_all(b"for ");
        let _ = stdout.write_all(line);
    }
}

fn bad(stdout: Stdout, line: &[u8]) -> usize
    ensures { result ≡ differs }
{
    let _ = stdout.write_all(b"no record: ");
    let _ = stdout.write_all(line);
    9
}

// Whether the lengths of a record fit the buffers, and its patches can be made.
fn small(v: &[usize; 31]) -> bool
    ensures { result ≡ small_of v.now }
{
    (v[5] <= ROOM) & (v[6] <= ROOM) & (v[7] <= ROOM) & (0 < v[9]) & (0 < v[12])
}

pub(crate) fn judge(stdout: Stdout, line: &[u8]) -> usize
    ensures { (result ≡ place_in line.now) × (result < 12) }
{
    let mut v = [0usize; 31];
    if !read_line(line, &mut v) {
        return bad(stdout, line);
    }
    if !small(&v) {
        return bad(stdout, line);
    }
    let m = crate::run::call(&v);
    let p = place(m, &v);
    report(stdout, p, m, line);
    p
}
