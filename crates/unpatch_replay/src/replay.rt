// A text of records, one after another.
ghost use Rattle.std.specs.Prelude.{◌≡◌, ◌+◌, ◌<◌, length};
ghost use Rattle.unpatch_replay.specs.Record.{none, counted, tally};

use std::io::Stdout;

#[derive(Drop)]
pub struct Counts {
    pub agree: u64,
    pub differ: u64,
}

fn count(c: Counts, same: bool) -> Counts
    requires { c.agree + c.differ < 18446744073709551615 }
    ensures { result ≡ counted same c }
{
    if same {
        return Counts {
            agree: c.agree + 1,
            differ: c.differ,
        };
    }
    Counts {
        agree: c.agree,
        differ: c.differ + 1,
    }
}

pub(crate) fn replay(stdout: Stdout, text: &[u8]) -> Counts
    ensures { result ≡ tally (length text.now) none text.now }
{
    let mut c = Counts {
        agree: 0,
        differ: 0,
    };
    let mut at = 0usize;
    while at < text.len() {
        let s = crate::record::first(stdout, &text[at..]);
        c = count(c, s.same);
        at += s.len;
    }
    c
}
