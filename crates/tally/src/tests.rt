// A closure as a judge, by public names alone: what it is asked for is the invariant of the type that lends it.
ghost use Rattle.std.specs.Prelude.{◌≡◌, ◌<◌, ◌≤◌, List, ℕ};
ghost use Rattle.std.specs.Fn.{FnReturnsAt};
ghost use Rattle.tally.specs.Record.{Inside};
ghost use Rattle.tally.specs.declared.Step.{Step};
ghost use Rattle.tally.specs.Tally.{none, Tally};

use crate::{Counts, Judge, Step, judged, tally};
use std::io::Stdout;
use std::marker::Model;

trait Asked {
    ghost ok: { Self → Type 0 };

    ghost gives: { Self → List ℕ → Step → Type 0 };

    fn ask(&self, text: &[u8]) -> Step
        requires { ok self.now }
        ensures gives { gives self.now text.now result }
        ensures inside { Inside text.now result };
}

impl<F: Fn(&[u8]) -> Step> Asked for F {
    ghost ok = { λ f. F.IsAlwaysCallable f × ((t : List ℕ) (s : Step) → FnReturnsAt F.Fn f t s → Inside t s) };

    ghost gives = { λ f t s. FnReturnsAt F.Fn f t s };

    fn ask(&self, text: &[u8]) -> Step {
        self(text)
    }
}

#[derive(Drop)]
struct Sure<'a, A: Asked> {
    asked: &'a A,
}

impl<'a, A: Asked> Model for Sure<'a, A> {
    ghost Value = { A };

    ghost view = { λ s. s.asked.now };

    ghost invariant = { λ s. A.ok s.asked.now };
}

impl<'a, A: Asked> Judge for Sure<'a, A> {
    ghost finds = { λ a. A.gives a };

    fn first(&self, text: &[u8]) -> Step {
        self.asked.ask(text)
    }
}

fn tally_asked<A: Asked>(stdout: Stdout, text: &[u8], asked: &A) -> Counts
    requires { A.ok asked.now }
    ensures { Tally (A.gives asked.now) none text.now result }
{
    tally(stdout, text, &Sure { asked })
}

fn tally_closure<F: Fn(&[u8]) -> Step>(stdout: Stdout, text: &[u8], judge: F) -> Counts
    requires callable { F.IsAlwaysCallable judge }
    requires inside { (t : List ℕ) (s : Step) → FnReturnsAt F.Fn judge t s → Inside t s }
    ensures { Tally (FnReturnsAt F.Fn judge) none text.now result }
{
    tally_asked(stdout, text, &judge)
}

// A record is a digit and a byte behind it, and agrees where the digit is 1.
fn pair(text: &[u8]) -> Step
    ensures { Inside text.now result }
{
    if text.len() < 2 {
        return Step::NoRecord;
    }
    judged(text[0] == b'1', 2)
}

#[test]
fn a_closure_is_a_judge(rt: HostRuntime) {
    let stdout = rt.stdout();
    for (text, agree, differ) in [
        (b"".as_slice(), 0, 0),
        (b"1\n0\n1\n", 2, 1),
        (b"0\n1", 0, 2),
    ] {
        assert_eq!(rt;
            tally_closure(stdout, text, |t| pair(t)),
            Counts { agree, differ }
        );
    }
}
