// The calls that draw a plan, as values.
use crate::statement::Statement;

#[derive(Clone, Copy)]
pub enum Call {
    // in a region, a step
    Lay(usize, Statement),
    // in a region, a fork of so many branches
    Fork(usize, usize),
    // from a node to a node
    Arc(usize, usize),
    // of a region, its first and last node
    Ends(usize, usize, usize),
    // of a node, another statement
    Change(usize, Statement),
}
