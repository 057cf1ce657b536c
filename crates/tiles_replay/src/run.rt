// A record's two calls. v holds its 39 numbers, in the order that main.rt lists.
ghost use Rattle.std.specs.Prelude.{◌≡◌, ◌≤◌, length};
ghost use Rattle.tiles_replay.specs.Run.{room, at, told_of, made_left, made_of, back_of, float_of, settings_of, first_of, cells_left, second_of};

use picture_limits::{PictureSettings, Refusal};
use picture_tiles::Tile;
use replay::damage::damage;
use replay::hash::{hash_bytes, hash_floats};
use replay::marks::{MARKS, fill_bytes};

// The cells of each buffer: 64 × 64 pixels of three samples, and 64 more.
pub const ROOM: usize = 12352;

// What a call answers, and the hash of its output afterwards.
#[derive(Clone, Copy)]
pub struct Told {
    pub number: usize,
    pub grid_h: usize,
    pub grid_w: usize,
    pub floats: usize,
    pub top: usize,
    pub left: usize,
    pub height: usize,
    pub width: usize,
    pub hash: usize,
}

fn tell(found: Result<Tile, Refusal>, hash: usize) -> Told
    ensures { result ≡ told_of found hash }
{
    match found {
        Ok(a) => Told {
            number: 0,
            grid_h: a.grid_h,
            grid_w: a.grid_w,
            floats: a.floats,
            top: a.top,
            left: a.left,
            height: a.height,
            width: a.width,
            hash,
        },
        Err(r) => Told {
            number: u32::from(r) as usize,
            grid_h: 0,
            grid_w: 0,
            floats: 0,
            top: 0,
            left: 0,
            height: 0,
            width: 0,
            hash,
        },
    }
}

fn make(
    s: PictureSettings,
    rgb: &[u8],
    height: usize,
    width: usize,
    index: usize,
    out: &mut [f32],
) -> Told
    ensures answer { result ≡ made_of s rgb.now height width index out.old }
    ensures output { out.new ≡ made_left s rgb.now height width index out.old }
{
    let found = picture_tiles::preprocess::preprocess_tile(s, rgb, height, width, index, out);
    tell(found, hash_floats(out) as usize)
}

fn bring(
    s: PictureSettings,
    patches: &[f32],
    height: usize,
    width: usize,
    index: usize,
    out: &mut [u8],
) -> Told
    ensures { result ≡ back_of s patches.now height width index out.old }
{
    let found = picture_tiles::restore::restore_tile(s, patches, height, width, index, out);
    tell(found, hash_bytes(out) as usize)
}

// The float of a pattern, of which a record's number has the low 32 bits.
fn float(x: usize) -> f32
    ensures { result ≡ float_of x }
{
    number_floats::pattern::f32_of_bits((x % 4294967296) as u32)
}

fn settings(v: &[usize; 39]) -> PictureSettings
    ensures { result ≡ settings_of v.now }
{
    let mean = [float(v[33]), float(v[34]), float(v[35])];
    let deviation = [float(v[36]), float(v[37]), float(v[38])];
    PictureSettings {
        patch_size: v[0],
        spatial_merge_size: v[1],
        image_size: v[2],
        resize_rule: v[32],
        mean,
        deviation,
    }
}

// The preprocess of a record's tile, over the front of the cells.
pub(crate) fn first(v: &[usize; 39], cells: &mut [f32]) -> Told
    requires { (at v.now 6 ≤ room) × (at v.now 7 ≤ length cells.old) }
    ensures answer { result ≡ first_of v.now cells.old }
    ensures output { cells.new ≡ cells_left v.now cells.old }
{
    let n = v[6];
    let m = v[7];
    let mut rgb = [0u8; ROOM];
    fill_bytes(v[8], &mut rgb);
    make(settings(v), &rgb[..n], v[3], v[4], v[5], &mut cells[..m])
}

// The restore of the cells that a record leaves, once they are damaged.
pub(crate) fn second(v: &[usize; 39], cells: &mut [f32]) -> Told
    requires { (at v.now 19 ≤ length cells.old) × (at v.now 20 ≤ room) }
    ensures { result ≡ second_of v.now cells.old }
{
    let n = v[19];
    let m = v[20];
    damage(cells, v[21], v[22]);
    let mut bytes = [0u8; ROOM];
    fill_bytes(MARKS, &mut bytes);
    bring(settings(v), &cells[..n], v[3], v[4], v[18], &mut bytes[..m])
}
