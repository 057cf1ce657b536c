// The rotation by smaller tables, of rows and of columns: the row of a position is built when it is needed.
ghost use Rattle.std.specs.Prelude.{◌≡◌, ◌+◌, ◌*◌, ◌/◌, ◌≤◌, length};
ghost use Rattle.buffers.specs.Region.{region, put};
ghost use Rattle.encoder_rotation.specs.Rotate.{rotated_token, rotate_of};
ghost use Rattle.encoder_rotation.specs.Axes.{twice, expand};
ghost use Rattle.buffers.specs.inner.Room.{where_fits};
ghost use Rattle.encoder_rotation.specs.inner.Room.{axes_fit};
ghost use Rattle.encoder_rotation.specs.inner.Fits.{BuildFits, QuartersFit, AxesIn};

use crate::places::Places;
use crate::rotate::rotate_token;
use buffers::part;

// x at place at of t.
pub(crate) fn copy_at(t: &mut [f32], at: usize, x: &[f32])
    requires { at + length x.now ≤ length t.old }
    ensures { t.new ≡ put t.old at x.now }
{
    let e = at + x.len();
    t[at..e].copy_from_slice(x);
}

// A row of a table at the front of t: the quarters r and c, and both again.
pub(crate) fn build(t: &mut [f32], r: &[f32], c: &[f32])
    requires { BuildFits (length t.old) (length r.now) (length c.now) }
    ensures { t.new ≡ put t.old 0 (twice r.now c.now) }
{
    let q = r.len();
    let half = q + q;
    copy_at(t, 0, r);
    copy_at(t, q, c);
    copy_at(t, half, r);
    copy_at(t, half + q, c);
}

// The heads of one token, by the quarters of its row in each table.
pub(crate) fn rotate_token_axes(
    s: &mut [f32],
    x: usize,
    heads: usize,
    q: usize,
    row_cos: &[f32],
    row_sin: &[f32],
    column_cos: &[f32],
    column_sin: &[f32],
)
    requires { QuartersFit (length s.old) (length row_cos.now) (length row_sin.now) (length column_cos.now) (length column_sin.now) x heads q }
    ensures { s.new ≡ put s.old x (rotated_token heads (q + q) (twice row_cos.now column_cos.now) (twice row_sin.now column_sin.now)
        (region s.old x (heads * (q + q + (q + q))))) }
{
    let mut cos = [0.0f32; 256];
    let mut sin = [0.0f32; 256];
    build(&mut cos, row_cos, column_cos);
    build(&mut sin, row_sin, column_sin);
    let half = q + q;
    let hd = half + half;
    rotate_token(s, x, heads, half, part(&cos, 0, hd), part(&sin, 0, hd));
}

impl Places {
    // Every token, one after another, by the quarter q of a head.
    pub(crate) fn rotate_tokens_axes(
        self,
        s: &mut [f32],
        q: usize,
        row_cos: &[f32],
        row_sin: &[f32],
        column_cos: &[f32],
        column_sin: &[f32],
    )
        requires { AxesIn (length s.old) (length row_cos.now) (length row_sin.now) (length column_cos.now) (length column_sin.now) self.x self.tokens self.heads q self.gw self.side }
        ensures { s.new ≡ put s.old self.x (rotate_of self.tokens self.heads (q + q) self.gw self.side (expand self.side q row_cos.now column_cos.now) (expand self.side q row_sin.now column_sin.now)
            (region s.old self.x (self.tokens * (self.heads * (q + q + (q + q)))))) }
    {
        let half = q + q;
        let dim = self.heads * (half + half);
        let mut xa = self.x;
        for i in 0..self.tokens {
            let h = i / self.gw * q;
            let w = i % self.gw * q;
            rotate_token_axes(
                s,
                xa,
                self.heads,
                q,
                part(row_cos, h, q),
                part(row_sin, h, q),
                part(column_cos, w, q),
                part(column_sin, w, q),
            );
            xa += dim;
        }
    }
}

// Every token, by the row of its position in the full tables that these stand for.
pub fn rotate_axes(
    s: &mut [f32],
    x: usize,
    tokens: usize,
    heads: usize,
    half: usize,
    gw: usize,
    side: usize,
    row_cos: &[f32],
    row_sin: &[f32],
    column_cos: &[f32],
    column_sin: &[f32],
)
    ensures { s.new ≡ where_fits (axes_fit (length s.old) (length row_cos.now) (length row_sin.now) (length column_cos.now) (length column_sin.now) x tokens heads half gw side)
        s.old x (rotate_of tokens heads half gw side (expand side (half / 2) row_cos.now column_cos.now) (expand side (half / 2) row_sin.now column_sin.now)
        (region s.old x (tokens * (heads * (half + half))))) }
{
    let places = Places {
        x,
        tokens,
        heads,
        half,
        gw,
        side,
    };
    if places.axes_fit(
        s.len(),
        row_cos.len(),
        row_sin.len(),
        column_cos.len(),
        column_sin.len(),
    ) {
        let q = half / 2;
        places.rotate_tokens_axes(s, q, row_cos, row_sin, column_cos, column_sin);
    }
}
