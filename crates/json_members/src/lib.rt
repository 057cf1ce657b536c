// What a text says: names after their escapes are read, members of an object, and sizes.
#![tactic(auto)]

pub mod member;
pub mod name;
pub mod size;
