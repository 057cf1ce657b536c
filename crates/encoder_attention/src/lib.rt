// Attention, with a score row, or two, for the source's matrix of scores.
#![tactic(auto)]

pub mod attention;
mod heads;
mod pair;
pub mod places;
mod room;
