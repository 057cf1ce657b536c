// Replays answers of the Rust against salvage, and writes how many calls agree, by the number that they return, and how many
// do not.
//
// Standard input holds a record a line, 31 decimals with a tab between two. The first 8 are patch, merge and image size, the
// grid's height and width, and the lengths of the patches, of the output and of the list. The next 9 make the patches: the
// seed of bytes, whose samples they are, and how many samples of a channel lie side by side; the first and the end of the
// places that get patterns instead, every how many of them, the pattern, and how much is added to it for each place; and a
// single place with its own pattern. Then 7 are the answer: the hash of the patches, the number, height, width, the count of
// bad samples, and the hashes of output and list afterwards. The last 7 are the resize rule and the patterns of means and
// deviations. `oracle/run target/archives/x86-64 salvage --sample` made the file stdin: salvage from its request, over the samples
// of the Rust.
#![tactic(auto)]

mod record;
mod run;
mod text;

use read_input::read_full;
use std::io;
use std::io::Stdout;

fn put(stdout: Stdout, name: &[u8], count: u64) -> io::Result<()> {
    stdout.write_all(name)?;
    stdout.print(count)
}

fn main(rt: HostRuntime) -> io::Result<()> {
    let mut text = [0u8; 65536];
    let stdout = rt.stdout();
    let n = read_full(&mut rt.stdin(), &mut text)?;
    if n == 65536 {
        stdout.write_all(b"the input fills the buffer\n")?;
    }
    let counts = text::replay(stdout, &text[..n]);
    put(stdout, b"salvage 0:", counts[0])?;
    put(stdout, b" 1:", counts[1])?;
    put(stdout, b" 5:", counts[5])?;
    put(stdout, b" 6:", counts[6])?;
    put(stdout, b" 7:", counts[7])?;
    put(stdout, b" 19:", counts[10])?;
    put(stdout, b" 21:", counts[11])?;
    put(stdout, b" differ ", counts[9])?;
    stdout.write_all(b"\n")
}
