// One record: whether its call answers as the Rust.
ghost use Rattle.std.specs.Prelude.{◌≡◌, ◌<◌};
ghost use Rattle.encoder_replay.specs.Record.{differs, counted_at, place_of, small_of};

use crate::run::{Answer, OUT, SCRATCH};
use replay::line::read_line;
use std::io::Stdout;

// Where a record's call is counted: by its number, and past these where it differs.
fn place_of(a: Answer, v: &[usize; 28]) -> usize
    ensures { (result ≡ counted_at a v.now) × (result < 24) }
{
    let same = (a.number == v[21]) & (a.tokens == v[22]) & (a.out == v[23]) & (a.scratch == v[24]);
    if same {
        if a.number < 23 {
            return a.number;
        }
    }
    23
}

fn put(stdout: Stdout, x: usize) {
    let _ = print!(stdout; "{x} ");
}

// Writes what ours is where it differs from the line's.
fn report(stdout: Stdout, i: usize, a: Answer, line: &[u8]) {
    if i == 23 {
        let _ = stdout.write_all(b"ours ");
        put(stdout, a.number);
        put(stdout, a.tokens);
        put(stdout, a.out);
        put(stdout, a.scratch);
        let _ = stdout.write_all(b"for ");
        let _ = stdout.write_all(line);
    }
}

fn bad(stdout: Stdout, line: &[u8]) -> usize
    ensures { result ≡ differs }
{
    let _ = stdout.write_all(b"no record: ");
    let _ = stdout.write_all(line);
    23
}

// Whether the lengths of a record fit the buffers.
fn small(v: &[usize; 28]) -> bool
    ensures { result ≡ small_of v.now }
{
    (v[12] <= 1024)
        & (v[13] <= 6144)
        & (v[14] <= 512)
        & (v[15] <= 512)
        & (v[16] <= SCRATCH)
        & (v[17] <= OUT)
}

pub(crate) fn judge(stdout: Stdout, line: &[u8]) -> usize
    ensures { (result ≡ place_of line.now) × (result < 24) }
{
    let mut v = [0usize; 28];
    if !read_line(line, &mut v) {
        return bad(stdout, line);
    }
    if !small(&v) {
        return bad(stdout, line);
    }
    let a = crate::run::run(&v);
    let i = place_of(a, &v);
    report(stdout, i, a, line);
    i
}
