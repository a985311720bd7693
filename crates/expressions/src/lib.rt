// The variables that statements name, and the expressions that they compute, numbered.
#![tactic(auto)]

pub mod computing;
pub mod expression;
pub mod numbering;
pub mod table;
pub mod variables;
