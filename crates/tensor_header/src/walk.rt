// Over the members of a header.
ghost use Rattle.std.specs.Prelude.{◌≡◌, cond, ◌&&◌, ◌≤◌, eqb, ltb, length, get_or, drop};
ghost use Rattle.json_members.specs.Names.{word};
ghost use Rattle.json_members.specs.inner.Bytes.{behind_at};
ghost use Rattle.tensor_header.specs.inner.Walked.{noted, nowhere, Walked, Found};

use crate::names::{behind_layers, tensor_is};
use crate::{Misread, damaged};
use encoder_settings::EncoderSettings;
use json_grammar::scan::blank;
use json_members::member::read_member;

fn pick(is: bool, value: usize, old: usize) -> usize
    ensures { result ≡ cond is value old }
{
    if is { value } else { old }
}

// One member more: its value's place, where its name is that of a tensor. `rest` is where the name goes on behind the front that
// those of layers have, if it has it.
fn note_each(
    s: EncoderSettings,
    h: &[u8],
    name: usize,
    value: usize,
    rest: Option<usize>,
    places: &mut [usize],
)
    requires num_layers_bound { s.num_layers ≤ 48 }
    requires rest_value { rest ≡ behind_at h.now name (word "vision_tower.transformer.layers.") }
    ensures { places.new ≡ noted s (drop name h.now) value places.old }
{
    for i in 0..places.len() {
        let is = tensor_is(s, h, name, rest, i);
        places[i] = pick(is, value, places[i]);
    }
}

fn note(s: EncoderSettings, h: &[u8], name: usize, value: usize, places: &mut [usize])
    requires { s.num_layers ≤ 48 }
    ensures { places.new ≡ noted s (drop name h.now) value places.old }
{
    note_each(s, h, name, value, behind_layers(h, name), places);
}

fn clear(places: &mut [usize])
    ensures { places.new ≡ nowhere places.old }
{
    places.fill(0);
}

// Behind the bracket that opens the object.
fn walk(s: EncoderSettings, h: &[u8], at: usize, places: &mut [usize])
    requires { s.num_layers ≤ 48 }
    ensures { Walked s h.now at places.new }
{
    clear(places);
    let mut i = at;
    loop {
        let Some(member) = read_member(h, i, 31) else {
            return;
        };
        note(s, h, member.name, member.value, places);
        let Some(next) = member.next else {
            return;
        };
        i = next;
    }
}

// An object opens at `at`.
fn opens(h: &[u8], at: usize) -> bool
    ensures { result ≡ (ltb at (length h.now) && eqb (get_or h.now at 0) 0x7B) }
{
    if h.len() <= at {
        return false;
    }
    h[at] == b'{'
}

// Of a text that is known to be one: 16 where its value is no object.
pub(crate) fn find(s: EncoderSettings, h: &[u8], places: &mut [usize]) -> Result<usize, Misread>
    requires { s.num_layers ≤ 48 }
    ensures { Found s h.now places.old places.new result }
{
    let at = blank(h, 0);
    if opens(h, at) {
        walk(s, h, at + 1, places);
        return Ok(h.len());
    }
    Err(damaged(at))
}
