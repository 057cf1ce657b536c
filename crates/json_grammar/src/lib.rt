// The texts of RFC 8259, as a grammar and as a table that reads them, and what reads single bytes.
#![tactic(auto)]

pub mod scan;
