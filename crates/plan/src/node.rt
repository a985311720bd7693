// What a plan consists of: nodes, arcs, and the ends of its regions.
use crate::statement::Statement;

// A node lies in one region.
#[derive(Clone, Copy)]
pub enum Node {
    // the region, and what is done
    Step(usize, Statement),
    // the region, the first of the regions that are its branches, and how many they are
    Fork(usize, usize, usize),
}

#[derive(Clone, Copy)]
pub struct Arc {
    pub from: usize,
    pub to: usize,
}

// The nodes at which a region begins and ends.
#[derive(Clone, Copy)]
pub struct Ends {
    pub first: usize,
    pub last: usize,
}

// The way in which a plan is read: backward, every arc is turned round, and first and last are exchanged.
#[derive(Clone, Copy)]
pub enum Direction {
    Forward,
    Backward,
}
