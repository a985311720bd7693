// A reference for small plans: it lists their runs one by one, and meets what the runs leave.
#![tactic(auto)]

pub mod listing;
mod moves;
mod state;
pub mod unlisted;
