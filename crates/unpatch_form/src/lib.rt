// The form of a text that says a picture and its settings; its fields, and the lines before the rows.
#![tactic(auto)]

pub mod decimal;
pub mod lines;
pub mod scan;
