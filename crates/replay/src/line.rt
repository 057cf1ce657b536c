// The lines of a text, and the numbers of a line.
ghost use Rattle.std.specs.Prelude.{◌≡◌, ◌≤◌, length};
ghost use Rattle.std.specs.Iterator.{at_most};
ghost use Rattle.buffers.specs.Region.{over};
ghost use Rattle.replay.specs.Pieces.{piece_len};
ghost use Rattle.replay.specs.Line.{stop_of, field_of, read_of};
ghost use Rattle.replay.specs.Lines.{bytes_left, GivesLine};

use crate::decimal::read_decimal;

// How many bytes the first piece has, the byte that ends it among them.
pub fn piece_len(text: &[u8], stop: u8) -> usize
    ensures first { result ≡ piece_len stop text.now }
    ensures within { result ≤ length text.now }
{
    for (i, b) in text.iter().enumerate() {
        if *b == stop {
            return i + 1;
        }
    }
    text.len()
}

// The lines that are left of a text, each with the newline that ends it, which the last may lack.
#[derive(Drop)]
pub struct Lines<'a> {
    rest: &'a [u8],
}

pub fn lines_of(text: &[u8]) -> Lines<'_>
    ensures { bytes_left result ≡ text.now }
{
    Lines { rest: text }
}

impl<'a> Iterator for Lines<'a> {
    type Item = &'a [u8];

    ghost next_gives = { GivesLine };

    ghost remaining = { λ s. at_most (length (bytes_left s)) };

    fn next(&mut self) -> Option<&'a [u8]> {
        let rest = self.rest;
        if rest.is_empty() {
            return None;
        }
        let (line, after) = rest.split_at(piece_len(rest, b'\n'));
        self.rest = after;
        Some(line)
    }
}

// A decimal and the byte after it.
fn field(s: &[u8], stop: u8) -> Option<usize>
    ensures { result ≡ field_of stop s.now }
{
    let (last, digits) = s.split_last()?;
    if *last != stop {
        return None;
    }
    read_decimal(digits)
}

// The byte after a number that n others follow.
fn stop_of(n: usize) -> u8
    ensures { result ≡ stop_of n }
{
    if 0 < n { b'\t' } else { b'\n' }
}

// As many numbers as `to` has room for; whether the line has these and nothing else. What was read
// before a field that is none stays.
pub fn read_line(line: &[u8], to: &mut [usize]) -> bool
    ensures whole { result ≡ (read_of (length to.old) line.now).whole }
    ensures output { to.new ≡ over (read_of (length to.old) line.now).list to.old }
{
    let mut at = 0;
    for k in 0..to.len() {
        if line.len() <= at {
            return false;
        }
        let end = at + piece_len(&line[at..], b'\t');
        let Some(n) = field(&line[at..end], stop_of(to.len() - 1 - k)) else {
            return false;
        };
        to[k] = n;
        at = end;
    }
    line.len() <= at
}
