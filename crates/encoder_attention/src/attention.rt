// Attention, with a score row, or two, for the source's matrix of scores, and the keys turned so that those of one place
// lie together: then the scores of several keys run side by side, each from +0 upward by itself.
ghost use Rattle.std.specs.Prelude.{◌≡◌, ◌&&◌, cond, ◌+◌, ◌*◌, length, get_or};
ghost use Rattle.std.specs.Float.{nan};
ghost use Rattle.buffers.specs.Region.{region, put};
ghost use Rattle.number_floats.specs.Constants.{zero32};
ghost use Rattle.buffers.specs.Each.{blank};
ghost use Rattle.encoder_kernels.specs.Kernels.{all_finite};
ghost use Rattle.encoder_linear.specs.inner.Lanes.{spread};
ghost use Rattle.encoder_linear.specs.inner.Fits.{WeighFits};
ghost use Rattle.encoder_attention.specs.Attention.{token_scores, token_sums, scores_of, attention_of};
ghost use Rattle.encoder_attention.specs.inner.Keys.{turned_keys};
ghost use Rattle.encoder_attention.specs.inner.Room.{attend_fits};
ghost use Rattle.encoder_attention.specs.inner.Fits.{TurnFits, KeyAt};
ghost use Rattle.encoder_attention.specs.inner.Places as P;

use crate::places::Places;
use buffers::{clear_at, part};
use encoder_kernels::finite::finite;
use encoder_linear::weigh::weigh;
use encoder_softmax::softmax::{scale_row, softmax};

impl Places {
    // The query at q against the keys at k, turned, into the score row.
    pub(crate) fn scores(self, s: &mut [f32], q: usize, k: usize)
        requires { WeighFits (length s.old) q k self.row self.hd self.t self.t 0 }
        ensures { s.new ≡ put s.old self.row (P.row_scores self (region s.old q self.hd) (region s.old k (self.hd * self.t))) }
    {
        weigh(s, q, k, self.row, self.hd, self.t, self.t, 0);
        scale_row(s, self.row, self.t, self.scaling);
    }

    // One query of one head: its scores over the keys, softened, weigh the values, which stand at e of each row of w. Says
    // whether every score was finite.
    pub(crate) fn attend_head(self, s: &mut [f32], i: usize, h: usize, w: usize, e: usize) -> bool
        requires { P.HeadAt (length s.old) self i h w e }
        ensures value { result ≡ all_finite (P.head_scores self s.old i h) }
        ensures s_after { blank zero32 self.row self.t s.new ≡ put (blank zero32 self.row self.t s.old) (P.sums_place self i h) (P.head_sums self s.old i h w e) }
    {
        let dim = self.heads * self.hd;
        let o = h * self.hd;
        let at = i * dim + o;
        self.scores(s, self.q + at, self.k + o * self.t);
        let ok = finite(part(s, self.row, self.t));
        softmax(s, self.row, self.t);
        weigh(s, self.row, self.v, self.out + at, self.t, w, self.hd, e);
        ok
    }

    // One query, all heads.
    pub(crate) fn attend_token(self, s: &mut [f32], i: usize) -> bool
        requires { P.TokenAt (length s.old) self i }
        ensures value { result ≡ all_finite (token_scores self.t self.heads self.hd self.scaling (P.queries self s.old) (P.keys self s.old) i) }
        ensures s_after { blank zero32 self.row self.t s.new ≡ put (blank zero32 self.row self.t s.old) (self.out + i * P.dim self)
            (token_sums self.t self.heads self.hd self.scaling (P.queries self s.old) (P.keys self s.old) (P.values self s.old) i) }
    {
        let dim = self.heads * self.hd;
        let mut ok = true;
        for h in 0..self.heads {
            let here = self.attend_head(s, i, h, dim, h * self.hd);
            ok = ok & here;
        }
        ok
    }

    // Every query, one after another.
    pub(crate) fn attend_tokens(self, s: &mut [f32]) -> bool
        requires { P.AttendFits (length s.old) self }
        ensures value { result ≡ all_finite (P.scores self s.old) }
        ensures s_after { blank zero32 self.row self.t s.new ≡ put (blank zero32 self.row self.t s.old) self.out (P.sums self s.old) }
    {
        let mut ok = true;
        for i in 0..self.t {
            let here = self.attend_token(s, i);
            ok = ok & here;
        }
        ok
    }

    // Every query, once the keys of k stand turned. Where k's place is free it takes a head's values and its scores, and the
    // keys are turned back at the end.
    pub(crate) fn attend_turned(self, s: &mut [f32], k: usize) -> bool
        requires { P.KeysFit (length s.old) self k × (region s.old k (P.floats self) ≡ P.keys self s.old) }
        ensures value { result ≡ all_finite (P.scores self s.old) }
        ensures s_after { blank zero32 self.row self.t s.new ≡ put (blank zero32 self.row self.t s.old) self.out (P.sums self s.old) }
    {
        let dim = self.heads * self.hd;
        let n = self.t * dim;
        if self.spare(k, n) {
            let ok = self.attend_heads(s, k);
            turn_keys(s, self.k, k, dim, self.t);
            return ok;
        }
        self.attend_tokens(s)
    }
}

// Key j to column j of the turned keys.
pub(crate) fn turn_key(s: &mut [f32], k: usize, kt: usize, t: usize, dim: usize, j: usize)
    requires { KeyAt (length s.old) k kt t dim j }
    ensures { s.new ≡ spread s.old (kt + j) t dim (λ d. get_or (region s.old k (t * dim)) (j * dim + d) nan) }
{
    for d in 0..dim {
        s[kt + j + d * t] = s[k + (j * dim + d)];
    }
}

// The t keys of dim at k, turned at kt: row d holds place d of each key.
pub(crate) fn turn_keys(s: &mut [f32], k: usize, kt: usize, t: usize, dim: usize)
    requires { TurnFits (length s.old) k kt t dim }
    ensures { s.new ≡ put s.old kt (turned_keys t dim (region s.old k (t * dim))) }
{
    for j in 0..t {
        turn_key(s, k, kt, t, dim, j);
    }
}

// Every query: its sums at out. Says whether all fits and every scaled score was finite; the keys then stand turned at
// kt, and the score row is +0.
pub fn attend(
    s: &mut [f32],
    q: usize,
    k: usize,
    v: usize,
    kt: usize,
    row: usize,
    out: usize,
    t: usize,
    heads: usize,
    hd: usize,
    scaling: f32,
) -> bool
    ensures value { result ≡ (attend_fits (length s.old) q k v kt row out t heads hd
        && all_finite (scores_of t heads hd scaling (region s.old q (t * (heads * hd))) (region s.old k (t * (heads * hd))))) }
    ensures s_after { s.new ≡ cond (attend_fits (length s.old) q k v kt row out t heads hd)
        (put (blank zero32 row t (put s.old kt (turned_keys t (heads * hd) (region s.old k (t * (heads * hd)))))) out
        (attention_of t heads hd scaling (region s.old q (t * (heads * hd))) (region s.old k (t * (heads * hd))) (region s.old v (t * (heads * hd)))))
        s.old }
{
    let turned = Places {
        q,
        k: kt,
        v,
        row,
        out,
        t,
        heads,
        hd,
        scaling,
    };
    if turned.fits(s.len(), k) {
        turn_keys(s, k, kt, t, heads * hd);
        let ok = turned.attend_turned(s, k);
        clear_at(s, row, t);
        return ok;
    }
    false
}
