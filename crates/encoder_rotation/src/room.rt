// Whether what the rotation is handed fits. No test forms a number that could wrap.
ghost use Rattle.std.specs.Prelude.{◌≡◌};
ghost use Rattle.encoder_rotation.specs.inner.Room as R;

use crate::places::Places;
use buffers::room::rows_inside;

impl Places {
    pub(crate) fn places_fit(self, lens: usize) -> bool
        ensures { result ≡ R.places_fit lens self.x self.tokens self.heads self.half self.gw self.side }
    {
        if 128 < self.half {
            return false;
        }
        if 2048 < self.side {
            return false;
        }
        if self.side < self.gw {
            return false;
        }
        let hd = self.half + self.half;
        if rows_inside(lens, 0, self.heads, hd) {
            let most = self.side * self.gw;
            let rows = rows_inside(lens, self.x, self.tokens, self.heads * hd);
            return rows & ((0 < self.gw) & (self.tokens <= most));
        }
        false
    }

    // The same, and full tables.
    pub(crate) fn rotate_fits(self, lens: usize, lenc: usize, lenn: usize) -> bool
        ensures { result ≡ R.rotate_fits lens lenc lenn self.x self.tokens self.heads self.half self.gw self.side }
    {
        if self.places_fit(lens) {
            let table = self.side * self.side * (self.half + self.half);
            return (lenc == table) & (lenn == table);
        }
        false
    }

    // The same, and tables of rows and of columns.
    pub(crate) fn axes_fit(self, lens: usize, rc: usize, rs: usize, cc: usize, cs: usize) -> bool
        ensures { result ≡ R.axes_fit lens rc rs cc cs self.x self.tokens self.heads self.half self.gw self.side }
    {
        if self.places_fit(lens) {
            let n = self.side * (self.half / 2);
            return (self.half % 2 == 0) & (((rc == n) & (rs == n)) & ((cc == n) & (cs == n)));
        }
        false
    }
}
