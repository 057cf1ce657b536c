// The members of an object, one after another.
ghost use Rattle.json_members.specs.inner.Turns.{Turns};

use json_grammar::scan::blank;
use json_read::value::{Next, name, part, read_value};

// Where a member's name begins, behind its quotation mark, where its value begins, and where the next member does, if there is one.
#[derive(Clone, Copy, PartialEq, Eq, Debug)]
pub struct Member {
    pub name: usize,
    pub value: usize,
    pub next: Option<usize>,
}

// The member that begins at `at`, behind blanks, with at most d brackets open in it.
pub fn read_member(s: &[u8], at: usize, d: usize) -> Option<Member>
    ensures { Turns s.now at d result }
{
    let Ok(n) = name(s, at) else {
        return None;
    };
    let v = blank(s, n);
    let Ok(m) = read_value(s, v, d) else {
        return None;
    };
    let q = blank(s, at) + 1;
    match part(s, m, b'}') {
        Ok(Next::More(j)) => Some(Member {
            name: q,
            value: v,
            next: Some(j),
        }),
        Ok(Next::Closed(_)) => Some(Member {
            name: q,
            value: v,
            next: None,
        }),
        Err(_) => None,
    }
}
