// Whether what the layers are handed fits. No test forms a number that could wrap.
ghost use Rattle.std.specs.Prelude.{◌≡◌};
ghost use Rattle.encoder_settings.specs.Weights.{floats};
ghost use Rattle.encoder_blocks.specs.Block.{parts_of};
ghost use Rattle.encoder_blocks.specs.inner.Room.{sizes_fit, tables_fit, score_floats, lengths_fit, layers_fit};
ghost use Rattle.encoder_blocks.specs.inner.Fits.{Products};

use crate::Sizes;
use buffers::room::{inside, rows_inside};
use encoder_settings::{Attention, Tables};

// No product of the sizes is large, and the heads make up the hidden size, in widths of four quarters.
pub(crate) fn sizes_fit(z: Sizes) -> bool
    ensures { result ≡ sizes_fit z }
{
    if 256 < z.head_dim {
        return false;
    }
    if 2048 < z.side {
        return false;
    }
    if z.side < z.grid_w {
        return false;
    }
    if !rows_inside(2048, 0, z.heads, z.head_dim) {
        return false;
    }
    let whole = (z.head_dim % 4 == 0) & (z.heads * z.head_dim == z.hidden);
    let few = z.tokens <= z.side * z.grid_w;
    (whole & few) & ((z.inter <= 8192) & (0 < z.grid_w))
}

// The weights of a layer.
pub(crate) fn layer_floats(z: Sizes) -> usize
    requires { Products z }
    ensures { result ≡ floats (parts_of z) }
{
    let i = z.inter;
    let h = z.hidden;
    2 * h + 4 * (h * h) + 2 * (i * h) + h * i
}

// Cosines and sines have the lengths of full tables, or those of rows and those of columns have theirs.
pub(crate) fn tables_fit(z: Sizes, tables: Tables) -> bool
    requires { Products z }
    ensures { result ≡ tables_fit z tables.entry }
{
    match tables {
        Tables::Full { cos, sin } => {
            let n = z.side * z.side * z.head_dim;
            (cos.len() == n) & (sin.len() == n)
        }
        Tables::Axes {
            row_cos,
            row_sin,
            column_cos,
            column_sin,
        } => {
            let n = z.side * (z.head_dim / 4);
            ((row_cos.len() == n) & (row_sin.len() == n))
                & ((column_cos.len() == n) & (column_sin.len() == n))
        }
    }
}

// How many floats the scores take.
pub(crate) fn score_floats(z: Sizes, f: Attention) -> usize
    requires { Products z }
    ensures { result ≡ score_floats f z }
{
    let t = z.tokens;
    match f {
        Attention::RowWise => t,
        Attention::Plain => t * t,
    }
}

// Tables, scratch and weights are long enough.
pub(crate) fn lengths_fit(
    z: Sizes,
    lens: usize,
    lenw: usize,
    tables: Tables,
    row: usize,
    count: usize,
    f: Attention,
) -> bool
    requires { Products z }
    ensures { result ≡ lengths_fit f z lens lenw tables.entry row count }
{
    let t = z.tokens;
    let inter = z.inter;
    let dim = z.hidden;
    let used = 7 * (t * dim) + 2 * (t * inter);
    let size = layer_floats(z);
    let fit = tables_fit(z, tables);
    let places = ((used <= row) & inside(lens, row, score_floats(z, f))) & (dim <= lens);
    (fit & places) & rows_inside(lenw, 0, count, size)
}

pub(crate) fn layers_fit(
    z: Sizes,
    lens: usize,
    lenw: usize,
    tables: Tables,
    row: usize,
    count: usize,
    f: Attention,
) -> bool
    ensures { result ≡ layers_fit f z lens lenw tables.entry row count }
{
    if sizes_fit(z) {
        return lengths_fit(z, lens, lenw, tables, row, count, f);
    }
    false
}
