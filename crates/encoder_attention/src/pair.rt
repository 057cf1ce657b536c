// Two queries of a head at once: each key and each value is read once for both, and each query's sums run by themselves.
ghost use Rattle.std.specs.Prelude.{◌≡◌, ◌++◌, ◌+◌, ◌*◌, ◌≤◌, length};
ghost use Rattle.buffers.specs.Region.{region, put};
ghost use Rattle.buffers.specs.Each.{blank};
ghost use Rattle.number_floats.specs.Constants.{zero32};
ghost use Rattle.encoder_kernels.specs.Kernels.{all_finite};
ghost use Rattle.encoder_linear.specs.inner.Fits.{WeighPairFits};
ghost use Rattle.encoder_softmax.specs.Softmax.{softmax_of};
ghost use Rattle.encoder_attention.specs.inner.Places as P;

use crate::places::Places;
use buffers::part;
use encoder_kernels::finite::finite;
use encoder_linear::pair::weigh_pair;
use encoder_softmax::softmax::{scale_row, softmax};

// The scores of each row become its weights.
pub(crate) fn softmax_pair(s: &mut [f32], row: usize, t: usize)
    requires { row + (t + t) ≤ length s.old }
    ensures { s.new ≡ put (put s.old row (softmax_of t (region s.old row t))) (row + t) (softmax_of t (region s.old (row + t) t)) }
{
    softmax(s, row, t);
    softmax(s, row + t, t);
}

impl Places {
    // The queries at a and at b against the keys at k, turned, into the score row and a second one behind it.
    pub(crate) fn scores_pair(self, s: &mut [f32], a: usize, b: usize, k: usize)
        requires { WeighPairFits (length s.old) a b k self.row (self.row + self.t) self.hd self.t self.t 0 }
        ensures { s.new ≡ put (put s.old self.row (P.row_scores self (region s.old a self.hd) (region s.old k (self.hd * self.t))))
            (self.row + self.t) (P.row_scores self (region s.old b self.hd) (region s.old k (self.hd * self.t))) }
    {
        let row = self.row;
        let t = self.t;
        let next = row + t;
        weigh_pair(s, a, b, k, row, next, self.hd, t, t, 0);
        scale_row(s, row, t, self.scaling);
        scale_row(s, next, t, self.scaling);
    }

    // Queries i and i + 1 of head h, whose values lie together. Says whether every score of both was finite.
    pub(crate) fn attend_pair(self, s: &mut [f32], i: usize, h: usize) -> bool
        requires { P.PairAt (length s.old) self i h }
        ensures value { result ≡ all_finite (P.head_scores self s.old i h ++ P.head_scores self s.old (i + 1) h) }
        ensures s_after { blank zero32 self.row (self.t + self.t) s.new ≡ put (put (blank zero32 self.row (self.t + self.t) s.old)
            (P.sums_place self i h) (P.head_sums self s.old i h self.hd 0))
            (P.sums_place self (i + 1) h) (P.head_sums self s.old (i + 1) h self.hd 0) }
    {
        let hd = self.hd;
        let dim = self.heads * hd;
        let o = h * hd;
        let at = i * dim + o;
        let to = (i + 1) * dim + o;
        let row = self.row;
        let next = row + self.t;
        let here = self.out + at;
        let there = self.out + to;
        self.scores_pair(s, self.q + at, self.q + to, self.k + o * self.t);
        let ok = finite(part(s, row, self.t + self.t));
        softmax_pair(s, row, self.t);
        weigh_pair(s, row, next, self.v, here, there, self.t, hd, hd, 0);
        ok
    }
}
