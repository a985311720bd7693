// What may be struck from a plan.
#![tactic(auto)]

pub mod event;
mod finding;
pub mod fixing;
pub mod listing;
mod marks;
pub mod replay;
pub mod reporting;
mod sending;
mod text;
