// Preprocess and restore, and what they answer.
ghost use Rattle.std.specs.Prelude.{◌++◌, ◌*◌, ◌/◌, ◌≤◌, length};
ghost use Rattle.unpatch_text.specs.Print.{grid_line, row_lines};
ghost use Rattle.unpatch_text.specs.Answer.{ran, room};
ghost use Rattle.unpatch_text.specs.inner.Steps.{Wrote, Shown};

use crate::print::{put_grid, put_refused, put_rows};
use picture::preprocess::pixtral_preprocess;
use picture_limits::PictureSettings;
use picture_restore::restore;

// The grid with merge m, and h rows of n bytes each.
fn show(
    grid_h: usize,
    grid_w: usize,
    m: usize,
    h: usize,
    n: usize,
    s: &[u8],
    out: &mut [u8],
) -> usize
    requires { Shown grid_h grid_w m h n (length s.now) (length out.old) }
    ensures { Wrote out.old out.new 0 (grid_line grid_h grid_w (grid_h * grid_w / (m * m)) ++ row_lines h n s.now) result }
{
    let tokens = grid_h * grid_w / (m * m);
    let e = put_grid(grid_h, grid_w, tokens, out);
    put_rows(h, n, s, e, out)
}

// The picture, to patches and back. No side is above 64: 64 × 64 pixels of three samples are 12,288.
pub(crate) fn run(
    s: PictureSettings,
    rgb: &[u8],
    height: usize,
    width: usize,
    out: &mut [u8],
) -> usize
    requires { (s.image_size ≤ 64) × (room ≤ length out.old) }
    ensures { Wrote out.old out.new 0 (ran s rgb.now height width) result }
{
    let mut patches = [0.0f32; 12288];
    let mut bytes = [0u8; 12288];
    match pixtral_preprocess(s, rgb, height, width, &mut patches) {
        Err(r) => put_refused(u32::from(r) as usize, out),
        Ok(made) => {
            let part = &patches[..made.floats];
            match restore(s, part, made.grid_h, made.grid_w, &mut bytes) {
                Err(r) => put_refused(u32::from(r) as usize, out),
                Ok(back) => {
                    let n = back.width * 3;
                    let count = back.height * n;
                    let m = s.spatial_merge_size;
                    show(
                        made.grid_h,
                        made.grid_w,
                        m,
                        back.height,
                        n,
                        &bytes[..count],
                        out,
                    )
                }
            }
        }
    }
}
