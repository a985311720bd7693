// Two things side by side, and two kinds of fact as one.
#![tactic(auto)]

pub mod pair;
