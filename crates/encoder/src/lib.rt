// The Pixtral encoder: the calls from patches to token vectors, each a form of one run.
#![tactic(auto)]

pub mod forward;
