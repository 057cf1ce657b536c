// Replays answers of the Rust against the crate `picture`, and writes how many calls agree, by the
// number that they return, and how many do not.
//
// Standard input holds a record a line, 30 decimals with a tab between two. The first 8 ask for a
// preprocess: patch, merge and image size, height, width, the RGB's length, the output's length and
// the seed of the RGB; 5 are its answer: the number, grid_h, grid_w, the count of floats, and the
// hash of the output afterwards. Then 6 ask for a restore of the floats just made: grid_h, grid_w,
// the patches' length, the output's length, and a damage with its place; and 4 are its answer: the
// number, height, width, and the hash of the output. The last 7 are the resize rule of both calls and
// the patterns of their means and deviations. `oracle/run target/archives/x86-64 picture --sample` made the
// file stdin from the Rust, with these means and deviations, and, for rule 2, from its request over the
// Rust's own resize.
#![tactic(auto)]

mod record;
mod run;
mod text;

use read_input::read_full;
use std::io;
use std::io::Stdout;

fn put(stdout: Stdout, name: &[u8], count: u64) -> io::Result<()> {
    stdout.write_all(name)?;
    stdout.print(count)
}

fn main(rt: HostRuntime) -> io::Result<()> {
    let mut text = [0u8; 65536];
    let stdout = rt.stdout();
    let n = read_full(&mut rt.stdin(), &mut text)?;
    if n == 65536 {
        stdout.write_all(b"the input fills the buffer\n")?;
    }
    let counts = text::replay(stdout, &text[..n]);
    put(stdout, b"preprocess 0:", counts[0])?;
    put(stdout, b" 1:", counts[1])?;
    put(stdout, b" 2:", counts[2])?;
    put(stdout, b" 3:", counts[3])?;
    put(stdout, b" 4:", counts[4])?;
    put(stdout, b" 5:", counts[5])?;
    put(stdout, b" 19:", counts[7])?;
    put(stdout, b" differ ", counts[6])?;
    put(stdout, b" restore 0:", counts[8])?;
    put(stdout, b" 1:", counts[9])?;
    put(stdout, b" 5:", counts[13])?;
    put(stdout, b" 6:", counts[14])?;
    put(stdout, b" 7:", counts[15])?;
    put(stdout, b" 8:", counts[16])?;
    put(stdout, b" 19:", counts[18])?;
    put(stdout, b" differ ", counts[17])?;
    stdout.write_all(b"\n")
}
