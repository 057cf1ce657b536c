// A reader of JSON: where a value or a text ends, or where and why it stops.
#![tactic(auto)]

mod number;
mod string;
pub mod value;
