// The rotation of queries and keys: it reads and writes floats where it is told, and nothing where they do not fit.
#![tactic(auto)]

pub mod axes;
mod places;
mod room;
pub mod rotate;
