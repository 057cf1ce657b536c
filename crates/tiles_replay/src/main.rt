// Replays answers of the Rust against the crate `picture_tiles`, and writes how many calls agree, by the
// number that they return, and how many do not.
//
// Standard input holds a record a line, 39 decimals with a tab between two. The first 9 ask for a tile's
// preprocess: patch, merge and image size, the sweep's height and width, the tile's index, the RGB's length,
// the output's length and the seed of the RGB; 9 are its answer: the number, grid_h, grid_w, the count of
// floats, top, left, height, width, and the hash of the output afterwards. Then 5 ask for a restore of the
// floats just made, in a sweep of the same sides: the index, the patches' length, the output's length, and a
// damage with its place; and 9 are its answer, as before. The last 7 are the resize rule of both calls and
// the patterns of their means and deviations. `oracle/run target/archives/x86-64 tiles --sample` made the file
// stdin: the cut and the padding from their request, and the patches of a padded tile by the Rust.
#![tactic(auto)]

mod record;
mod run;
mod text;

use read_input::read_full;
use std::io;
use std::io::Stdout;

fn put(stdout: Stdout, name: &[u8], count: u64) -> io::Result<()> {
    stdout.write_all(name)?;
    stdout.print(count)
}

fn main(rt: HostRuntime) -> io::Result<()> {
    let mut text = [0u8; 65536];
    let stdout = rt.stdout();
    let n = read_full(&mut rt.stdin(), &mut text)?;
    if n == 65536 {
        stdout.write_all(b"the input fills the buffer\n")?;
    }
    let counts = text::replay(stdout, &text[..n]);
    put(stdout, b"tile 0:", counts[0])?;
    put(stdout, b" 1:", counts[1])?;
    put(stdout, b" 2:", counts[2])?;
    put(stdout, b" 3:", counts[3])?;
    put(stdout, b" 4:", counts[4])?;
    put(stdout, b" 5:", counts[5])?;
    put(stdout, b" 19:", counts[10])?;
    put(stdout, b" 20:", counts[11])?;
    put(stdout, b" differ ", counts[9])?;
    put(stdout, b" back 0:", counts[12])?;
    put(stdout, b" 1:", counts[13])?;
    put(stdout, b" 2:", counts[14])?;
    put(stdout, b" 4:", counts[16])?;
    put(stdout, b" 5:", counts[17])?;
    put(stdout, b" 7:", counts[19])?;
    put(stdout, b" 8:", counts[20])?;
    put(stdout, b" 19:", counts[22])?;
    put(stdout, b" 20:", counts[23])?;
    put(stdout, b" differ ", counts[21])?;
    stdout.write_all(b"\n")
}
