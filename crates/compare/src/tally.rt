// What was compared, and what was found.
use crate::counter::Counter;
use std::fmt;

// Comparisons: how many of them found a difference, and how many were of something that the reference found.
#[derive(Clone, Copy, Default)]
pub(crate) struct Comparisons {
    compared: Counter,
    differ: Counter,
    found: Counter,
}

impl Comparisons {
    // Counts a comparison.
    pub(crate) fn note(&mut self, same: bool, found: bool) {
        self.compared.add_one();
        self.differ.add_if(!same);
        self.found.add_if(found);
    }
}

impl fmt::Display for Comparisons {
    fn fmt<W: fmt::Write>(&self, f: &mut fmt::Formatter<W>) -> fmt::Result {
        write!(
            f,
            "{} compared, {} differ, {}",
            self.compared, self.differ, self.found
        )
    }
}

#[derive(Clone, Copy, Default)]
pub(crate) struct Tally {
    // values at nodes; found: those that are not the start value
    pub(crate) values: Comparisons,
    // bytes of the list of redundant steps; found: the redundant steps
    pub(crate) redundant: Comparisons,
    // bytes of the list of dead steps; found: the dead steps
    pub(crate) dead: Comparisons,
    // answers on the value of a variable before a node; found: the numbers
    pub(crate) fixed: Comparisons,
}
