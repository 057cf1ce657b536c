// Attention in the source's form.
#![tactic(auto)]

pub mod plain;
mod room;
