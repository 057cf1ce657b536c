// The run from patches to token vectors, by embedding, layers and projector in one lent scratch, whichever the tables and the
// attention are.
#![tactic(auto)]

mod embed;
pub mod form;
mod layout;
mod projector;
mod run;

// The floats of a patch, of the embedding's weights, of all layers' weights and of a merged row.
#[derive(Clone, Copy)]
pub(crate) struct Counts {
    pub patch: usize,
    pub embedding: usize,
    pub layers: usize,
    pub merged: usize,
}

// Where linear_1's result and the score row stand in the scratch.
#[derive(Clone, Copy)]
pub(crate) struct Regions {
    pub linear: usize,
    pub row: usize,
}
