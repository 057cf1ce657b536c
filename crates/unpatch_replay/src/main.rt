// Replays texts and their answers against the crate `unpatch_text`, and writes how many texts are
// answered so and how many are not.
//
// Standard input holds records: a line of two numbers of five digits with a tab between them, the
// lengths of a text and of its answer; then the text, then the answer. `tests/unpatch.py` made the
// file stdin from document 01 alone.
#![tactic(auto)]

mod record;
mod replay;

use read_input::read_full;
use std::io;

fn main(rt: HostRuntime) -> io::Result<()> {
    let mut text = [0u8; 262144];
    let stdout = rt.stdout();
    let n = read_full(&mut rt.stdin(), &mut text)?;
    if n == 262144 {
        stdout.write_all(b"the input fills the buffer\n")?;
    }
    let counts = replay::replay(stdout, &text[..n]);
    println!(stdout; "agree {} differ {}", counts.agree, counts.differ)
}
