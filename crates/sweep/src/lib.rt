// Sweeps a plan: finds, for every node, what all runs that reach it leave of a start value.
#![tactic(auto)]

mod buffers;
mod forcing;
pub mod joined;
mod lowering;
mod siding;
mod solving;
pub mod sweeping;
mod valuing;
