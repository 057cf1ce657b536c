// A safetensors file opened: its header read, and the place of each tensor that the loader asks for.
#![tactic(auto)]

mod names;
mod walk;

ghost use Rattle.std.specs.Prelude.{◌≡◌, ◌≤◌, ◌<◌, length, get_or};
ghost use Rattle.tensor_header.specs.Header as D;
ghost use Rattle.tensor_header.specs.Header.{header_length, Headed, Opening};

use crate::walk::find;
use encoder_settings::EncoderSettings;
use encoder_settings::settings::settings_allowed;
use json_grammar::scan::Fault;
use json_read::value::read_text;
use picture_limits::Refusal;

// Why a file is refused, and at which of its bytes.
#[derive(Clone, Copy, PartialEq, Eq, Debug)]
pub struct Misread {
    pub why: Refusal,
    pub place: usize,
}

// The header is none, at the n-th of its bytes.
pub(crate) fn damaged(n: usize) -> Misread
    requires { n ≤ 0xFFFFFFFFFFFFFFF7 }
    ensures { result ≡ D.damaged n }
{
    Misread {
        why: Refusal::Header,
        place: 8 + n,
    }
}

fn byte(file: &[u8], i: usize) -> u64
    requires { i < length file.now }
    ensures { (result ≡ get_or file.now i 0) × (result ≤ 255) }
{
    file[i] as u64
}

// The header's length as its eight bytes say it.
fn header_length(file: &[u8]) -> u64
    requires { 8 ≤ length file.now }
    ensures { result ≡ header_length file.now }
{
    let low = byte(file, 0) + 256 * (byte(file, 1) + 256 * (byte(file, 2) + 256 * byte(file, 3)));
    let high = byte(file, 4) + 256 * (byte(file, 5) + 256 * (byte(file, 6) + 256 * byte(file, 7)));
    low + 4294967296 * high
}

// A header that is lent alone.
fn read_header(s: EncoderSettings, h: &[u8], places: &mut [usize]) -> Result<usize, Misread>
    requires { s.num_layers ≤ 48 }
    ensures { Headed s h.now places.old places.new result }
{
    match read_text(h, 32) {
        Ok(_) => find(s, h, places),
        Err(Fault::Stop(n)) => Err(damaged(n)),
        Err(Fault::Deep(n)) => Err(damaged(n)),
    }
}

// How many bytes the file's header has, from byte 8 on; and, in `places`, where it has the entries of the tensors.
pub fn open(s: EncoderSettings, file: &[u8], places: &mut [usize]) -> Result<usize, Misread>
    ensures { Opening s file.now places.old places.new result }
{
    if !settings_allowed(s) {
        return Err(Misread {
            why: Refusal::Setting,
            place: 0,
        });
    }
    let unframed = Misread {
        why: Refusal::Header,
        place: 0,
    };
    if file.len() < 8 {
        return Err(unframed);
    }
    let n = header_length(file);
    let room = (file.len() - 8) as u64;
    if room < n {
        return Err(unframed);
    }
    let e = 8 + n as usize;
    read_header(s, &file[8..e], places)
}
