// A record's two calls. v holds its 30 numbers, in the order that main.rt lists.
ghost use Rattle.std.specs.Prelude.{◌≡◌, ◌≤◌, length};
ghost use Rattle.picture_replay.specs.Run.{room, at, made_from, made_of, left, back_from, back_of, float_of, settings_of, first_of, cells_left, second_of};

use picture::Patches;
use picture_limits::{PictureSettings, Refusal};
use picture_restore::Picture;
use replay::damage::damage;
use replay::hash::{hash_bytes, hash_floats};
use replay::marks::{MARKS, fill_bytes};

// The cells of each buffer: 64 × 64 pixels of three samples, and 64 more.
pub const ROOM: usize = 12352;

// What a preprocess answers, and the hash of its output afterwards.
#[derive(Clone, Copy)]
pub struct Made {
    pub number: usize,
    pub grid_h: usize,
    pub grid_w: usize,
    pub floats: usize,
    pub hash: usize,
}

// The same of a restore.
#[derive(Clone, Copy)]
pub struct Back {
    pub number: usize,
    pub height: usize,
    pub width: usize,
    pub hash: usize,
}

fn tell_made(found: Result<Patches, Refusal>, hash: usize) -> Made
    ensures { result ≡ made_from found hash }
{
    match found {
        Ok(p) => Made {
            number: 0,
            grid_h: p.grid_h,
            grid_w: p.grid_w,
            floats: p.floats,
            hash,
        },
        Err(r) => Made {
            number: u32::from(r) as usize,
            grid_h: 0,
            grid_w: 0,
            floats: 0,
            hash,
        },
    }
}

fn tell_back(found: Result<Picture, Refusal>, hash: usize) -> Back
    ensures { result ≡ back_from found hash }
{
    match found {
        Ok(p) => Back {
            number: 0,
            height: p.height,
            width: p.width,
            hash,
        },
        Err(r) => Back {
            number: u32::from(r) as usize,
            height: 0,
            width: 0,
            hash,
        },
    }
}

fn make(s: PictureSettings, rgb: &[u8], height: usize, width: usize, out: &mut [f32]) -> Made
    ensures answer { result ≡ made_of s rgb.now height width out.old }
    ensures output { out.new ≡ left s rgb.now height width out.old }
{
    let found = picture::preprocess::pixtral_preprocess(s, rgb, height, width, out);
    tell_made(found, hash_floats(out) as usize)
}

fn bring(s: PictureSettings, patches: &[f32], grid_h: usize, grid_w: usize, out: &mut [u8]) -> Back
    ensures { result ≡ back_of s patches.now grid_h grid_w out.old }
{
    let found = picture_restore::restore(s, patches, grid_h, grid_w, out);
    tell_back(found, hash_bytes(out) as usize)
}

// The float of a pattern, of which a record's number has the low 32 bits.
fn float(x: usize) -> f32
    ensures { result ≡ float_of x }
{
    number_floats::pattern::f32_of_bits((x % 4294967296) as u32)
}

fn settings(v: &[usize; 30]) -> PictureSettings
    ensures { result ≡ settings_of v.now }
{
    let mean = [float(v[24]), float(v[25]), float(v[26])];
    let deviation = [float(v[27]), float(v[28]), float(v[29])];
    PictureSettings {
        patch_size: v[0],
        spatial_merge_size: v[1],
        image_size: v[2],
        resize_rule: v[23],
        mean,
        deviation,
    }
}

// The preprocess of a record, over the front of the cells.
pub(crate) fn first(v: &[usize; 30], cells: &mut [f32]) -> Made
    requires { (at v.now 5 ≤ room) × (at v.now 6 ≤ length cells.old) }
    ensures answer { result ≡ first_of v.now cells.old }
    ensures output { cells.new ≡ cells_left v.now cells.old }
{
    let n = v[5];
    let m = v[6];
    let mut rgb = [0u8; ROOM];
    fill_bytes(v[7], &mut rgb);
    make(settings(v), &rgb[..n], v[3], v[4], &mut cells[..m])
}

// The restore of the cells that a record leaves, once they are damaged.
pub(crate) fn second(v: &[usize; 30], cells: &mut [f32]) -> Back
    requires { (at v.now 15 ≤ length cells.old) × (at v.now 16 ≤ room) }
    ensures { result ≡ second_of v.now cells.old }
{
    let n = v[15];
    let m = v[16];
    damage(cells, v[17], v[18]);
    let mut bytes = [0u8; ROOM];
    fill_bytes(MARKS, &mut bytes);
    bring(settings(v), &cells[..n], v[13], v[14], &mut bytes[..m])
}
