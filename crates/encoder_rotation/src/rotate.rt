// The rotation of queries and keys by their positions.
ghost use Rattle.std.specs.Prelude.{◌≡◌, ◌+◌, ◌*◌, length};
ghost use Rattle.buffers.specs.Region.{region, put};
ghost use Rattle.encoder_rotation.specs.Rotate.{rotated_head, rotated_token, rotate_of};
ghost use Rattle.buffers.specs.inner.Room.{where_fits};
ghost use Rattle.encoder_rotation.specs.inner.Room.{rotate_fits};
ghost use Rattle.encoder_rotation.specs.inner.Fits.{HeadFits, TokenFits, RotateFits};

use crate::places::Places;
use buffers::part;

// One head vector, in place.
pub(crate) fn rotate_half_inplace(s: &mut [f32], x: usize, half: usize, cos: &[f32], sin: &[f32])
    requires { HeadFits (length s.old) (length cos.now) (length sin.now) x half }
    ensures { s.new ≡ put s.old x (rotated_head half cos.now sin.now (region s.old x (half + half))) }
{
    let z = x + half;
    for j in 0..half {
        let x1 = s[x + j];
        let x2 = s[z + j];
        s[x + j] = x1 * cos[j] + (-x2) * sin[j];
        s[z + j] = x2 * cos[j + half] + x1 * sin[j + half];
    }
}

// The heads of one token.
pub(crate) fn rotate_token(
    s: &mut [f32],
    x: usize,
    heads: usize,
    half: usize,
    cos: &[f32],
    sin: &[f32],
)
    requires { TokenFits (length s.old) (length cos.now) (length sin.now) x heads half }
    ensures { s.new ≡ put s.old x (rotated_token heads half cos.now sin.now (region s.old x (heads * (half + half)))) }
{
    let mut xa = x;
    for r in 0..heads {
        rotate_half_inplace(s, xa, half, cos, sin);
        xa += half;
        xa += half;
    }
}

impl Places {
    // Every token, one after another.
    pub(crate) fn rotate_tokens(self, s: &mut [f32], cos: &[f32], sin: &[f32])
        requires { RotateFits (length s.old) (length cos.now) (length sin.now) self.x self.tokens self.heads self.half self.gw self.side }
        ensures { s.new ≡ put s.old self.x (rotate_of self.tokens self.heads self.half self.gw self.side cos.now sin.now (region s.old self.x (self.tokens * (self.heads * (self.half + self.half))))) }
    {
        let hd = self.half + self.half;
        let dim = self.heads * hd;
        let mut xa = self.x;
        for i in 0..self.tokens {
            let p = (i / self.gw * self.side + i % self.gw) * hd;
            rotate_token(
                s,
                xa,
                self.heads,
                self.half,
                part(cos, p, hd),
                part(sin, p, hd),
            );
            xa += dim;
        }
    }
}

// Every token, by the tables' rows at its position.
pub fn rotate(
    s: &mut [f32],
    x: usize,
    tokens: usize,
    heads: usize,
    half: usize,
    gw: usize,
    side: usize,
    cos: &[f32],
    sin: &[f32],
)
    ensures { s.new ≡ where_fits (rotate_fits (length s.old) (length cos.now) (length sin.now) x tokens heads half gw side)
        s.old x (rotate_of tokens heads half gw side cos.now sin.now (region s.old x (tokens * (heads * (half + half))))) }
{
    let places = Places {
        x,
        tokens,
        heads,
        half,
        gw,
        side,
    };
    if places.rotate_fits(s.len(), cos.len(), sin.len()) {
        places.rotate_tokens(s, cos, sin);
    }
}
