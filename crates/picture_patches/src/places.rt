// The neighbours of a target's rows and columns, worked out once for all its samples.
ghost use Rattle.std.specs.Prelude.{◌≡◌, ◌≤◌, ◌<◌, length};
ghost use Rattle.buffers.specs.Rows.{tab};
ghost use Rattle.buffers.specs.Region.{put};
ghost use Rattle.picture_resize.specs.Resize.{near};
ghost use Rattle.picture_patches.specs.inner.Places.{place_of, Placed};

use picture_resize::{Near, near_of};

// The largest image size, so no target has more rows or columns.
pub(crate) const MOST: usize = 2048;

// What is stored of an index's neighbours: the first one, and how far from it. The second one follows from the first.
#[derive(Clone, Copy)]
pub(crate) struct Place {
    pub low: usize,
    pub part: f64,
}

// The places of every index of a side, over the front of `out`.
pub(crate) fn places(from: usize, to: usize, out: &mut [Place])
    requires { to ≤ length out.old }
    ensures { out.new ≡ put out.old 0 (tab to (λ j. place_of (near from to j))) }
{
    for j in 0..to {
        let n = near_of(from, to, j);
        out[j] = Place {
            low: n.low,
            part: n.part,
        };
    }
}

// The neighbours of index j of a side.
pub(crate) fn near_at(from: usize, to: usize, j: usize, places: &[Place]) -> Near
    requires { (0 < from) × (j < to) × Placed from to places.now }
    ensures { result ≡ near from to j }
{
    let place = places[j];
    Near {
        low: place.low,
        high: (place.low + 1).min(from - 1),
        part: place.part,
    }
}
