// What reads a text in the form: the rows' bytes, and the whole.
#![tactic(auto)]

mod hex;
mod lines;
pub mod read;
