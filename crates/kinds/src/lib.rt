// What a kind of fact is, and what steps do to its values.
#![tactic(auto)]

pub mod effect;
pub mod effects;
pub mod kind;
