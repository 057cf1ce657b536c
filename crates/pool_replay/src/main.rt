// Replays a sequence of calls on pools, and writes how many answer as stored, by the number that they return, and how many do
// not.
//
// Standard input holds a record a line, 10 decimals with a tab between two. The first says what is done: 0 a new pool for so
// many floats, over a slice that is filled by a seed; 1 add, 2 find and 3 drop of a key, with so many floats of the slice lent
// and, for add, so many floats of a seed; 4 the count, and 5 one entry of the bookkeeping, become others, as no call would make
// them. The next 4 are: the length lent (of 5 the entry); the key; how many floats are added (of 4 the count, of 5 the start);
// the seed (of 5 the length). The last 5 are the answer: the number, the count of results afterwards, start and length of what
// was found, and the hash of the whole slice. `oracle/run target/archives/x86-64 pool --sample` made the file stdin, from the request.
#![tactic(auto)]

mod record;
mod run;
mod text;

use read_input::read_full;
use std::io;
use std::io::Stdout;

fn put(stdout: Stdout, name: &[u8], count: u64) -> io::Result<()> {
    stdout.write_all(name)?;
    stdout.print(count)
}

fn main(rt: HostRuntime) -> io::Result<()> {
    let mut text = [0u8; 65536];
    let stdout = rt.stdout();
    let n = read_full(&mut rt.stdin(), &mut text)?;
    if n == 65536 {
        stdout.write_all(b"the input fills the buffer\n")?;
    }
    let counts = text::replay(stdout, &text[..n]);
    put(stdout, b"pool 0:", counts[0])?;
    put(stdout, b" 23:", counts[1])?;
    put(stdout, b" 24:", counts[2])?;
    put(stdout, b" 25:", counts[3])?;
    put(stdout, b" 26:", counts[4])?;
    put(stdout, b" 27:", counts[5])?;
    put(stdout, b" differ ", counts[6])?;
    stdout.write_all(b"\n")
}
