// The refusals 16, 17, 18 and 5, each over all tensors before the next.
ghost use Rattle.std.specs.Prelude.{◌≡◌, true, ℕ, ◌≤◌, ◌<◌, length};
ghost use Rattle.encoder_settings.specs.Settings.{allowed};
ghost use Rattle.tensor_header.specs.Tensors.{tensors};
ghost use Rattle.weights.specs.inner.Described.{Kept, Firsts, Judges, refused_at};

use crate::Misread;
use crate::counts::{count_at, tensor_count, total};
use crate::entry::{Described, Undescribed, describe};
use crate::test::{is_damaged, is_misplaced, is_other};
use encoder_settings::EncoderSettings;
use picture_limits::Refusal;

// The first tensor at which a test passes; as many as there are where there is none.
fn first_at<F: Fn(Result<Described, Undescribed>, usize) -> bool>(
    s: EncoderSettings,
    h: &[u8],
    places: &[usize],
    passes: F,
) -> usize
    requires s_value { allowed s ≡ true }
    requires s_in_bounds { length (tensors s) ≤ length places.now }
    requires callable { (d : Kept) (count : ℕ) → count ≤ 67108864 → F.pre passes d count }
    ensures { Firsts s h.now places.now (F.post passes) result }
{
    let n = tensor_count(s);
    for i in 0..n {
        if passes(describe(h, places[i]), count_at(s, i)) {
            return i;
        }
    }
    n
}

// A refusal at tensor i, whose entry's value stands at `at` in the header: the first tensor is 1, and the place is the file's.
fn refused(why: Refusal, h: &[u8], at: usize, i: usize) -> Result<usize, Misread>
    requires { i < 440 }
    ensures { at ≤ length h.now → result ≡ refused_at why at i }
{
    let tensor = i + 1;
    if at == 0 {
        return Err(Misread {
            why,
            tensor,
            place: 0,
        });
    }
    if h.len() < at {
        return Err(Misread {
            why,
            tensor,
            place: 0,
        });
    }
    Err(Misread {
        why,
        tensor,
        place: 8 + at,
    })
}

// The answer for a header with so many bytes of data behind it, and room for so many floats.
pub(crate) fn judge(
    s: EncoderSettings,
    h: &[u8],
    places: &[usize],
    bytes: usize,
    room: usize,
) -> Result<usize, Misread>
    requires s_value { allowed s ≡ true }
    requires s_in_bounds { length (tensors s) ≤ length places.now }
    ensures { Judges s h.now places.now bytes room result }
{
    let n = tensor_count(s);
    let i = first_at(s, h, places, |d, _| is_damaged(d));
    if i < n {
        return refused(Refusal::Header, h, places[i], i);
    }
    let j = first_at(s, h, places, |d, count| is_other(d, count));
    if j < n {
        return refused(Refusal::Tensor, h, places[j], j);
    }
    let k = first_at(s, h, places, |d, count| is_misplaced(d, count, bytes));
    if k < n {
        return refused(Refusal::Offsets, h, places[k], k);
    }
    let floats = total(s);
    if room < floats {
        return Err(Misread {
            why: Refusal::Output,
            tensor: 0,
            place: 0,
        });
    }
    Ok(floats)
}
