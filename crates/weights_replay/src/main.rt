// Replays safetensors files and their answers against the crate `weights`, and writes how many are answered so and how many
// are not.
//
// Standard input holds records: a line of 18 decimals with a tab between two, then a file, then a newline. The decimals are
// the file's length; patch, merge, image, rule, hidden, heads, head, layers, intermediate, text and bias; how many floats are
// lent; number, floats, tensor and place of the answer; and the hash of 2,048 words afterwards, of which the first were lent
// and which all were marks before. `tests/weights.py` made the file stdin from document 02, RFC 8259 and the public layout.
#![tactic(auto)]

mod record;
mod text;

use read_input::read_full;
use std::io;

fn main(rt: HostRuntime) -> io::Result<()> {
    let mut text = [0u8; 524288];
    let stdout = rt.stdout();
    let n = read_full(&mut rt.stdin(), &mut text)?;
    if n == 524288 {
        stdout.write_all(b"the input fills the buffer\n")?;
    }
    let counts = text::replay(stdout, &text[..n]);
    println!(stdout; "agree {} differ {}", counts.agree, counts.differ)
}
