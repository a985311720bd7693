// Why a call is refused.
#![tactic(auto)]

pub mod printing;
pub mod refusal;
pub mod table;
