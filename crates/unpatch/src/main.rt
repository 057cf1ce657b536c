// Reads a picture and its settings as text, and writes the picture that patches give back.
//
// One byte more than a text may have is read, so that a longer one is seen to be longer.
#![tactic(auto)]

use read_input::read_full;
use std::io;

fn main(rt: HostRuntime) -> io::Result<()> {
    let mut text = [0u8; 49153];
    let n = read_full(&mut rt.stdin(), &mut text)?;
    let mut out = [0u8; unpatch_text::ROOM];
    let count = unpatch_text::unpatch(&text[..n], &mut out);
    rt.stdout().write_all(&out[..count])
}
