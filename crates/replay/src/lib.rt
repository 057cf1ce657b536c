// What the programs that replay stored answers of the Rust share: lines of decimals, a generator of
// bytes, words and floats, a damage to a float, and a hash.
// No function here has a `requires`: each says what it gives for any text and any buffer.
#![tactic(auto)]

pub mod damage;
mod decimal;
pub mod hash;
pub mod line;
pub mod marks;
