// Replays texts and their answers against the crate `config`, and writes how many are answered so and how many are not.
//
// Standard input holds records: eleven numbers of five digits, each with a byte behind it, then a text and a newline. The
// numbers are the text's length, the number and the place of its answer, and eight sizes of the settings: patch, merge,
// image, hidden, heads, layers, intermediate, text. `tests/config.py` made the file stdin from document 02 and RFC 8259.
#![tactic(auto)]

mod record;

use read_input::read_full;
use std::io;

fn main(rt: HostRuntime) -> io::Result<()> {
    let mut text = [0u8; 262144];
    let stdout = rt.stdout();
    let n = read_full(&mut rt.stdin(), &mut text)?;
    if n == text.len() {
        stdout.write_all(b"the input fills the buffer\n")?;
    }
    let counts = record::replay(stdout, &text[..n]);
    println!(stdout; "agree {} differ {}", counts.agree, counts.differ)
}
