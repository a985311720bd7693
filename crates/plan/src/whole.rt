// Whether a plan is whole.
ghost use Rattle.std.specs.Prelude.{◌≡◌, ℕ, ◌<◌, ◌≤◌, true, false, length, None, MatchBool, MatchOption, MatchResult, ◌≢◌, slice_index_or, slice_set};
ghost use Rattle.plan.specs.Drawn.{ends_at};
ghost use Rattle.plan.specs.Marks.{Marked, Followed, FollowedTo, FirstsTo, Grown, Exact, unset};
ghost use Rattle.plan.specs.Paths.{turned, first_in, last_in, Ended, Reached, Leaves, EachLeaves, Whole, Lowest, Fault};
ghost use Rattle.plan.specs.Stored.{seen};

use crate::node::{Arc, Direction, Ends};
use crate::stored::{NODES, Plan};
use refusals::refusal::Refusal;

impl Arc {
    // The arc as it leads in a direction.
    pub fn turned(self, direction: Direction) -> Arc
        ensures { result ≡ turned direction self }
    {
        match direction {
            Direction::Forward => self,
            Direction::Backward => Arc {
                from: self.to,
                to: self.from,
            },
        }
    }
}

impl Ends {
    // The node with which a region begins in a direction. It and the next are alike, a match each; to turn both
    // ends round as a pair and take one of it would be no shorter where they are asked for.
    pub fn first_in(self, direction: Direction) -> usize
        ensures { result ≡ first_in direction self }
    {
        match direction {
            Direction::Forward => self.first,
            Direction::Backward => self.last,
        }
    }

    // The node with which a region ends in a direction.
    pub fn last_in(self, direction: Direction) -> usize
        ensures { result ≡ last_in direction self }
    {
        match direction {
            Direction::Forward => self.last,
            Direction::Backward => self.first,
        }
    }
}

// Marks where an arc leads to, if it starts at a marked node. Says whether that is new.
fn follow(arc: Arc, marks: &mut [bool]) -> bool
    requires { (arc.from < length marks.old) × (arc.to < length marks.old) }
    ensures { MatchBool result
        (Marked marks.old arc.from × (slice_index_or marks.old arc.to false ≡ false) × (marks.new ≡ slice_set marks.old arc.to true))
        ((marks.new ≡ marks.old) × Followed marks.old arc) }
{
    if marks[arc.from] && !marks[arc.to] {
        marks[arc.to] = true;
        return true;
    }
    false
}

// The lowest of the marks that is not set.
fn first_unset(marks: &[bool], count: usize) -> Option<usize>
    requires { count ≤ length marks.now }
    ensures { MatchOption result ((n : ℕ) → n < count → Marked marks.now n) (λ n. Lowest count (Marked marks.now) n) }
{
    marks[..count].iter().position(|mark| !*mark)
}

impl Plan {
    // Follows every arc once. Says whether a mark is new.
    fn spread(&self, direction: Direction, marks: &mut [bool; NODES]) -> bool
        ensures grown { Grown (seen self.now) direction marks.old marks.new }
        ensures told { MatchBool result
            (unset marks.new < unset marks.old)
            (FollowedTo (seen self.now) direction marks.new (length (seen self.now).arcs)) }
    {
        // A loop: of a closure that changes the marks, a proof would know nothing behind a chain.
        let mut changed = false;
        for arc in self.arcs.as_slice() {
            if follow(arc.turned(direction), marks) {
                changed = true;
            }
        }
        changed
    }

    // Marks the node with which each region begins.
    fn mark_firsts(&self, direction: Direction, marks: &mut [bool; NODES])
        ensures grown { Grown (seen self.now) direction marks.old marks.new }
        ensures firsts { FirstsTo (seen self.now) direction marks.new (length (seen self.now).ends) }
    {
        for named in self.ends.as_slice() {
            if let Some(ends) = named {
                marks[ends.first_in(direction)] = true;
            }
        }
    }

    // Marks the nodes that are reached in a direction.
    fn reached(&self, direction: Direction) -> [bool; NODES]
        ensures { Exact (seen self.now) direction result }
    {
        let mut marks = [false; NODES];
        self.mark_firsts(direction, &mut marks);
        while self.spread(direction, &mut marks) {}
        marks
    }

    // The lowest node that is not reached in a direction.
    fn first_unreached(&self, direction: Direction) -> Option<usize>
        ensures { MatchOption result
            ((n : ℕ) → n < length (seen self.now).nodes → Reached (seen self.now) direction n)
            (λ n. Lowest (length (seen self.now).nodes) (Reached (seen self.now) direction) n) }
    {
        let marks = self.reached(direction);
        first_unset(&marks, self.nodes.len())
    }

    // The lowest node that does not lead to the last node of its region.
    fn first_stranded(&self) -> Option<usize>
        ensures { MatchOption result
            (EachLeaves (seen self.now))
            (λ n. Lowest (length (seen self.now).nodes) (Leaves (seen self.now)) n) }
    {
        self.first_unreached(Direction::Backward)
    }

    // The lowest region that has no ends.
    fn first_unended(&self) -> Option<usize>
        ensures { MatchOption result (Ended (seen self.now))
            (λ q. Lowest (length (seen self.now).ends) (λ q. ends_at (seen self.now) q ≢ None) q) }
    {
        self.ends.iter().position(|named| named.is_none())
    }

    // Whether the plan is whole, or the first refusal that says why not.
    pub fn whole(&self) -> Result<(), Refusal>
        ensures { MatchResult result (λ _. Whole (seen self.now)) (λ e. Fault (seen self.now) e) }
    {
        if let Some(region) = self.first_unended() {
            return Err(Refusal::NoEnds(region));
        }
        if let Some(node) = self.first_unreached(Direction::Forward) {
            return Err(Refusal::Unreached(node));
        }
        if let Some(node) = self.first_stranded() {
            return Err(Refusal::Stranded(node));
        }
        Ok(())
    }
}
