// Records of wanted answers, one after another: how many agree with what a judge of records finds, and how many differ.
//
// What a record is, and whether it agrees, is the judge's to say. The text stands in the program's input.
#![tactic(auto)]

#[cfg(test)]
mod tests;

ghost use Rattle.std.specs.Prelude.{◌≡◌, ◌-◌, ◌+◌, ◌<◌, ◌≤◌, List, ℕ};
ghost use Rattle.tally.specs.Record.{digit_at, number_at, judged, Inside};
ghost use Rattle.tally.specs.declared.Step.{Step};
ghost use Rattle.tally.specs.Tally.{none, counted, taken, Tally};

use std::io::Stdout;

// What a judge finds at the front of a text: a record of so many bytes, or nothing that is one.
#[derive(Clone, Copy, PartialEq, Eq, Debug)]
pub enum Step {
    Agrees(usize),
    Differs(usize),
    NoRecord,
}

#[derive(Clone, Copy, PartialEq, Eq, Debug)]
pub struct Counts {
    pub agree: u64,
    pub differ: u64,
}

// What a record of so many bytes is found to be.
pub fn judged(agrees: bool, len: usize) -> Step
    ensures { result ≡ judged agrees len }
{
    if agrees {
        Step::Agrees(len)
    } else {
        Step::Differs(len)
    }
}

// What a digit counts: what is below the digits, or past the text's end, counts as 0.
fn digit(s: &[u8], at: usize, i: usize) -> usize
    ensures { (result ≡ digit_at s.now (at + i)) × (result ≤ 255) }
{
    let b = s.get(at.saturating_add(i)).copied().unwrap_or(0);
    usize::from(b.saturating_sub(b'0'))
}

// Five digits.
pub fn number_at(s: &[u8], at: usize) -> usize
    ensures is { result ≡ number_at s.now at }
    ensures within { result ≤ 2833305 }
{
    let a = digit(s, at, 0);
    let b = digit(s, at, 1);
    let c = digit(s, at, 2);
    let d = digit(s, at, 3);
    let e = digit(s, at, 4);
    (((a * 10 + b) * 10 + c) * 10 + d) * 10 + e
}

fn count(c: Counts, s: Step) -> Counts
    requires { c.agree + c.differ < 18446744073709551615 }
    ensures { result ≡ counted s c }
{
    match s {
        Step::Agrees(_) => Counts {
            agree: c.agree + 1,
            differ: c.differ,
        },
        _ => Counts {
            agree: c.agree,
            differ: c.differ + 1,
        },
    }
}

// How many bytes are done with: what is no record is written, and taken whole.
fn take(stdout: Stdout, text: &[u8], s: Step) -> usize
    ensures { result ≡ taken s text.now }
{
    match s {
        Step::Agrees(len) => len,
        Step::Differs(len) => len,
        Step::NoRecord => {
            let _ = stdout.write_all(b"no record: ");
            let _ = stdout.write_all(text);
            text.len()
        }
    }
}

// Finds what is at the front of a text.
pub trait Judge {
    ghost finds: { Self → List ℕ → Step → Type 0 };

    fn first(&self, text: &[u8]) -> Step
        ensures found { finds self.now text.now result }
        ensures inside { Inside text.now result };
}

// One record after another, each as `judge` finds it.
pub fn tally<J: Judge>(stdout: Stdout, text: &[u8], judge: &J) -> Counts
    ensures { Tally (J.finds judge.now) none text.now result }
{
    let mut c = Counts {
        agree: 0,
        differ: 0,
    };
    let mut rest = text;
    while !rest.is_empty() {
        let s = judge.first(rest);
        c = count(c, s);
        rest = &rest[take(stdout, rest, s)..];
    }
    c
}
