// Logger plans: how they are drawn, and when they are whole.
#![tactic(auto)]

pub mod call;
pub mod conditions;
pub mod drawing;
pub mod node;
pub mod printing;
pub mod rows;
pub mod statement;
pub mod stored;
pub mod whole;
