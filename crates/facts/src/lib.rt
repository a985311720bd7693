// The kinds of facts: available expressions, dead variables, fixed values.
#![tactic(auto)]

pub mod available;
pub mod bitwise;
pub mod constant;
pub mod dead;
pub mod fixed;
pub mod four;
pub mod masks;
mod setting;
