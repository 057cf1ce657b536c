// What a program reads at its start: its input to the end, as far as a buffer of a fixed size has room.
#![tactic(auto)]

ghost use Rattle.std.specs.Prelude.{IfOk, ◌≤◌, ◌<◌, length, take};
ghost use Rattle.std.specs.Io.KnownBytes.{Consumes, IsAtEnd};

use std::io;
use std::io::Read;

// Reads until `to` is full, the input ends or a read fails, and returns how many bytes it put at the start of `to`.
pub fn read_full<R: Read>(from: &mut R, to: &mut [u8]) -> io::Result<usize>
    ensures within { IfOk result (λ n. n ≤ length to.new) }
    ensures bytes { IfOk result (λ n. Consumes (R.remaining from.old) (R.remaining from.new) (take n to.new)) }
    ensures whole { IfOk result (λ n. n < length to.new → IsAtEnd (R.remaining from.new)) }
{
    let mut done = 0;
    while done < to.len() {
        let n = from.read(&mut to[done..])?;
        if n == 0 {
            return Ok(done);
        }
        done += n;
    }
    Ok(done)
}
