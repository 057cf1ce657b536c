// Head by head: a head's values laid together, then its queries, two at once. What a head's queries read, its keys and its
// values, then stays in the near caches; no sum changes.
ghost use Rattle.std.specs.Prelude.{◌≡◌, ◌+◌, ◌*◌, length, get_or};
ghost use Rattle.std.specs.Float.{nan};
ghost use Rattle.buffers.specs.Region.{region, put, put_rows};
ghost use Rattle.buffers.specs.Rows.{tab, rows};
ghost use Rattle.buffers.specs.Each.{blank};
ghost use Rattle.number_floats.specs.Constants.{zero32};
ghost use Rattle.encoder_kernels.specs.Kernels.{all_finite};
ghost use Rattle.encoder_attention.specs.inner.Values.{head_values};
ghost use Rattle.encoder_attention.specs.inner.Fits.{CopyFits, GatherFits};
ghost use Rattle.encoder_attention.specs.inner.Places as P;

use crate::places::Places;

// The n floats at x, over those at y.
fn copy_floats(s: &mut [f32], x: usize, y: usize, n: usize)
    requires { CopyFits (length s.old) x y n }
    ensures { s.new ≡ put s.old y (tab n (λ d. get_or s.old (x + d) nan)) }
{
    let e = x + n;
    s.copy_within(x..e, y);
}

// Of the t values of dim at v the hd places from o on, together at g.
pub(crate) fn gather(s: &mut [f32], v: usize, g: usize, t: usize, dim: usize, hd: usize, o: usize)
    requires { GatherFits (length s.old) v g t dim hd o }
    ensures { s.new ≡ put s.old g (head_values t dim hd o (region s.old v (t * dim))) }
{
    for j in 0..t {
        copy_floats(s, v + (j * dim + o), g + j * hd, hd);
    }
}

impl Places {
    // Every query of head h, whose values lie together: two at once, and the last by itself where their count is odd.
    pub(crate) fn attend_queries(self, s: &mut [f32], h: usize) -> bool
        requires { P.QueriesAt (length s.old) self h }
        ensures value { result ≡ all_finite (rows self.t (λ i. P.head_scores self s.old i h)) }
        ensures s_after { blank zero32 self.row (self.t + self.t) s.new ≡ put_rows (blank zero32 self.row (self.t + self.t) s.old) self.t
            (λ i. P.sums_place self i h) (λ i. P.head_sums self s.old i h self.hd 0) }
    {
        let mut ok = true;
        for j in 0..self.t / 2 {
            let here = self.attend_pair(s, j * 2, h);
            ok = ok & here;
        }
        if self.t % 2 == 0 {
            return ok;
        }
        let last = self.attend_head(s, self.t - 1, h, self.hd, 0);
        ok & last
    }

    // Every head: its values together at g, the scores of two queries behind them.
    pub(crate) fn attend_heads(self, s: &mut [f32], g: usize) -> bool
        requires { P.HeadsFit (length s.old) self g }
        ensures value { result ≡ all_finite (P.scores self s.old) }
        ensures s_after { blank zero32 g (P.floats self) s.new ≡ put (blank zero32 g (P.floats self) s.old) self.out (P.sums self s.old) }
    {
        let dim = self.heads * self.hd;
        let together = Places {
            v: g,
            row: g + self.t * self.hd,
            ..self
        };
        let mut ok = true;
        for h in 0..self.heads {
            gather(s, self.v, g, self.t, dim, self.hd, h * self.hd);
            let here = together.attend_queries(s, h);
            ok = ok & here;
        }
        ok
    }
}
