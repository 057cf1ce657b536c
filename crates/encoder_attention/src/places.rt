// Where a call reads and writes in the scratch.

// The places of the queries, of the keys, of the values, of the scores and of the sums; how many tokens there are, how many
// heads of how many floats, and by what each score is scaled. The scores are a row of them, or two, and the keys stand
// turned; in the source's form (`encoder_plain`) they are a matrix, and the keys stand as they are.
#[derive(Clone, Copy)]
pub struct Places {
    pub q: usize,
    pub k: usize,
    pub v: usize,
    pub row: usize,
    pub out: usize,
    pub t: usize,
    pub heads: usize,
    pub hd: usize,
    pub scaling: f32,
}
