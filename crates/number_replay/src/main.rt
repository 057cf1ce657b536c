// Replays answers of the Rust against `patterns` and `exps`, and writes how many records of each rule
// agree and how many records do not.
//
// Standard input holds a record a line, 20 bytes: the rule's letter (b, h, r, e, t, p, w for bf16, half,
// root, E, T, packed, widened), a space, the input, a space, the Rust's answer, a newline; both numbers as
// 8 lower-case hex digits. `oracle/run target/archives/x86-64 --sample` made the file stdin from the Rust
// alone.
#![tactic(auto)]

mod hex;
mod record;
mod replay;

use read_input::read_full;
use std::io;
use std::io::Stdout;

fn put(stdout: Stdout, name: &[u8], count: u64) -> io::Result<()> {
    stdout.write_all(name)?;
    stdout.print(count)
}

fn main(rt: HostRuntime) -> io::Result<()> {
    let mut text = [0u8; 262144];
    let stdout = rt.stdout();
    let n = read_full(&mut rt.stdin(), &mut text)?;
    if n == 262144 {
        stdout.write_all(b"the input fills the buffer\n")?;
    }
    let counts = replay::replay(stdout, &text[..n]);
    put(stdout, b"bf16 ", counts[0])?;
    put(stdout, b" half ", counts[1])?;
    put(stdout, b" root ", counts[2])?;
    put(stdout, b" exp ", counts[3])?;
    put(stdout, b" tanh ", counts[4])?;
    put(stdout, b" pack ", counts[5])?;
    put(stdout, b" widen ", counts[6])?;
    put(stdout, b" differ ", counts[7])?;
    stdout.write_all(b"\n")
}
