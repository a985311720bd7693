// Where a run stands.
ghost use Rattle.std.specs.Prelude.{◌≡◌, ◌+◌, ◌<◌, ◌≤◌, MatchBool, slice_index, slice_set};

use plan::node::Node;
use std::ops::Range;

// The largest plans whose runs are listed.
pub(crate) const MOST_NODES: usize = 12;

pub(crate) const MOST_REGIONS: usize = 8;

// How often a run may begin a node after each entry into its region: once on the way to the step that decides a fact, and
// once more on the way from there.
const TURNS: u8 = 2;

// Where a run stands in one region.
#[derive(Clone, Copy, PartialEq, Eq)]
pub(crate) enum Place {
    // the region is not entered
    Outside,
    // it is about to begin this node
    Before(usize),
    // it waits for the branches of this fork
    Within(usize),
    // it is behind its last node
    Done,
}

// Where a run stands in every region, and how often each node was begun since its region was entered.
#[derive(Clone, Copy)]
pub(crate) struct State {
    pub(crate) places: [Place; MOST_REGIONS],
    begun: [u8; MOST_NODES],
}

impl State {
    // No region is entered.
    pub(crate) fn new() -> State {
        State {
            places: [Place::Outside; MOST_REGIONS],
            begun: [0; MOST_NODES],
        }
    }

    // Moves on in a region. By number: of what `get_mut` gives, a proof would not know that it is the region's.
    pub(crate) fn put(&mut self, region: usize, place: Place)
        ensures places { self.new.places ≡ slice_set self.old.places region place }
        ensures begun { self.new.begun ≡ self.old.begun }
    {
        if region < MOST_REGIONS {
            self.places[region] = place;
        }
    }

    // Begins a node, if it may be begun once more. Says whether it was, as an insert into a set says whether it was new: that it
    // was not is no error.
    pub(crate) fn begin(&mut self, node: usize) -> bool
        ensures places { self.new.places ≡ self.old.places }
        ensures begun { MatchBool result
            ((slice_index self.old.begun node < 2) × (self.new.begun ≡ slice_set self.old.begun node (slice_index self.old.begun node + 1)))
            ((node < 12 → 2 ≤ slice_index self.old.begun node) × (self.new.begun ≡ self.old.begun)) }
    {
        if node >= MOST_NODES || self.begun[node] >= TURNS {
            return false;
        }
        self.begun[node] += 1;
        true
    }

    // Forgets how often the nodes of a region were begun.
    pub(crate) fn forget(&mut self, nodes: &[Node], region: usize) {
        for (turns, node) in self.begun.iter_mut().zip(nodes) {
            if node.region() == region {
                *turns = 0;
            }
        }
    }

    // Whether every one of some regions is behind its last node.
    pub(crate) fn all_done(&self, mut regions: Range<usize>) -> bool {
        regions.all(|region| self.places.get(region) == Some(&Place::Done))
    }
}
