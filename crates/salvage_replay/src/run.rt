// A record's call. v holds its 31 numbers, in the order that main.rt lists.
ghost use Rattle.std.specs.Prelude.{◌≡◌, ◌<◌, length};
ghost use Rattle.picture_samples.specs.Samples.{sample_table};
ghost use Rattle.salvage_replay.specs.Run.{room, at, word, float_of, settings_of, told_of, saved_of, changed, patches_in, bytes_of, told_in, Small};

use picture_limits::{PictureSettings, Refusal};
use picture_salvage::{Salvaged, salvage};
use replay::hash::{hash_bytes, hash_words};
use replay::marks::{MARKS, fill_bytes, fill_words};

// The cells of each buffer: a patch of 32 × 32 pixels of three samples, and 64 more.
pub const ROOM: usize = 3136;

// What a call answers, and the hashes of the patches, and of output and list afterwards.
#[derive(Clone, Copy)]
pub struct Told {
    pub patches: usize,
    pub number: usize,
    pub height: usize,
    pub width: usize,
    pub bad: usize,
    pub bytes: usize,
    pub entries: usize,
}

fn tell(found: Result<Salvaged, Refusal>, patches: usize, bytes: usize, entries: usize) -> Told
    ensures { result ≡ told_of found patches bytes entries }
{
    match found {
        Ok(a) => Told {
            patches,
            number: 0,
            height: a.height,
            width: a.width,
            bad: a.bad,
            bytes,
            entries,
        },
        Err(r) => Told {
            patches,
            number: u32::from(r) as usize,
            height: 0,
            width: 0,
            bad: 0,
            bytes,
            entries,
        },
    }
}

fn save(
    s: PictureSettings,
    patches: &[u32],
    grid_h: usize,
    grid_w: usize,
    out: &mut [u8],
    list: &mut [u32],
) -> Told
    ensures { result ≡ saved_of s patches.now grid_h grid_w out.old list.old }
{
    let found = salvage(s, patches, grid_h, grid_w, out, list);
    tell(
        found,
        hash_words(patches) as usize,
        hash_bytes(out) as usize,
        hash_words(list) as usize,
    )
}

// A pattern, of which a record's number has the low 32 bits.
fn pattern(x: usize) -> u32
    ensures { result ≡ word x }
{
    (x % 4294967296) as u32
}

fn float(x: usize) -> f32
    ensures { result ≡ float_of x }
{
    number_floats::pattern::f32_of_bits((x % 4294967296) as u32)
}

fn settings(v: &[usize; 31]) -> PictureSettings
    ensures { result ≡ settings_of v.now }
{
    let mean = [float(v[25]), float(v[26]), float(v[27])];
    let deviation = [float(v[28]), float(v[29]), float(v[30])];
    PictureSettings {
        patch_size: v[0],
        spatial_merge_size: v[1],
        image_size: v[2],
        resize_rule: v[24],
        mean,
        deviation,
    }
}

// What stands at place i, where the bytes have the sample x.
fn change(v: &[usize; 31], i: usize, x: u32) -> u32
    requires { (i < room) × (0 < at v.now 12) }
    ensures { result ≡ changed v.now i x }
{
    if i == v[15] {
        return pattern(v[16]);
    }
    if i < v[10] {
        return x;
    }
    if v[11] <= i {
        return x;
    }
    if (i - v[10]) % v[12] != 0 {
        return x;
    }
    pattern(v[13] % 4294967296 + i * (v[14] % 4294967296))
}

// The patches, by a table of samples and bytes.
fn fill(v: &[usize; 31], t: &[u32; 768], bytes: &[u8], to: &mut [u32])
    requires { (0 < at v.now 9) × (0 < at v.now 12) × (length bytes.now ≡ room) × (length to.old ≡ room) }
    ensures { to.new ≡ patches_in v.now t.now bytes.now room }
{
    let run = v[9];
    for i in 0..to.len() {
        to[i] = change(v, i, t[i / run % 3 * 256 + bytes[i] as usize]);
    }
}

// The patches of a record whose settings are s.
fn make(v: &[usize; 31], s: PictureSettings, to: &mut [u32])
    requires { (0 < at v.now 9) × (0 < at v.now 12) × (length to.old ≡ room) }
    ensures { to.new ≡ patches_in v.now (sample_table s.mean s.deviation) (bytes_of v.now) room }
{
    let mean = s.mean;
    let deviation = s.deviation;
    let t = picture_samples::samples(mean, deviation);
    let mut bytes = [0u8; ROOM];
    fill_bytes(v[8], &mut bytes);
    fill(v, &t, &bytes, to);
}

// The salvage of a record's patches, over marks.
pub(crate) fn call(v: &[usize; 31]) -> Told
    requires { Small v.now }
    ensures { result ≡ told_in v.now }
{
    let n = v[5];
    let m = v[6];
    let k = v[7];
    let s = settings(v);
    let mut patches = [0u32; ROOM];
    make(v, s, &mut patches);
    let mut out = [0u8; ROOM];
    fill_bytes(MARKS, &mut out);
    let mut list = [0u32; ROOM];
    fill_words(MARKS, &mut list);
    save(s, &patches[..n], v[3], v[4], &mut out[..m], &mut list[..k])
}
