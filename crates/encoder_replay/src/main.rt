// Replays answers of the Rust against the crate `encoder`, and writes how many calls agree, by the
// number that they return, and how many do not.
//
// Standard input holds a record a line, 28 decimals with a tab between two. The first 21 ask for a
// forward: patch, merge and image size, hidden size, heads, head width, layers, intermediate size
// and text size, the scaling's bits, grid_h, grid_w, the lengths of patches, weights, cosines,
// sines, scratch and output, the seed of the inputs, and a damage to them with its place; 4 are its
// answer: the number, the tokens, the hash of the output and that of the scratch afterwards. The last
// three are the resize rule, projector_bias, and 1 where the forward is that with plain attention.
// `oracle/run target/archives/x86-64 encoder --sample` made the file stdin from the Rust alone.
#![tactic(auto)]

mod record;
mod run;
mod text;

use read_input::read_full;
use std::io;
use std::io::Stdout;

fn put(stdout: Stdout, name: &[u8], count: u64) -> io::Result<()> {
    stdout.write_all(name)?;
    stdout.print(count)
}

fn main(rt: HostRuntime) -> io::Result<()> {
    let mut text = [0u8; 65536];
    let stdout = rt.stdout();
    let n = read_full(&mut rt.stdin(), &mut text)?;
    if n == 65536 {
        stdout.write_all(b"the input fills the buffer\n")?;
    }
    let counts = text::replay(stdout, &text[..n]);
    put(stdout, b"forward 0:", counts[0])?;
    put(stdout, b" 1:", counts[1])?;
    put(stdout, b" 5:", counts[5])?;
    put(stdout, b" 6:", counts[6])?;
    put(stdout, b" 7:", counts[7])?;
    put(stdout, b" 9:", counts[9])?;
    put(stdout, b" 10:", counts[10])?;
    put(stdout, b" 11:", counts[11])?;
    put(stdout, b" 12:", counts[12])?;
    put(stdout, b" 22:", counts[22])?;
    put(stdout, b" differ ", counts[23])?;
    stdout.write_all(b"\n")
}
