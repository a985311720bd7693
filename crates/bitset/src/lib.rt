// Words of 64 bits.
#![tactic(auto)]

pub mod bits;
pub mod words;
