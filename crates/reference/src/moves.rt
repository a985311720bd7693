// The moves of a run.
ghost use Rattle.std.specs.Prelude.{◌≡◌, slice_set};

use crate::state::{Place, State};
use kinds::effects::act;
use kinds::kind::Kind;
use plan::node::{Direction, Ends, Node};
use plan::stored::Plan;
use std::alloc::AllocError;
use std::ops::Range;

// A run up to where it stands, with what it leaves of the start value.
#[derive(Clone, Copy)]
pub(crate) struct Run<V> {
    pub(crate) state: State,
    pub(crate) value: V,
}

impl<V: Copy> Run<V> {
    // The run, moved on in one region.
    fn moved(mut self, region: usize, place: Place) -> Run<V>
        ensures places { result.state.places ≡ slice_set self.state.places region place }
        ensures begun { result.state.begun ≡ self.state.begun }
        ensures value { result.value ≡ self.value }
    {
        self.state.put(region, place);
        self
    }
}

// The regions that are the branches of a fork. What the runs are compared by has its like, and shares nothing with the
// reference.
fn branches(first: usize, count: usize) -> Range<usize> {
    first..first.saturating_add(count)
}

// Whose runs are listed: those of a plan, read in a direction, which leave values under a kind of fact.
#[derive(Drop)]
pub(crate) struct Lister<'a, K> {
    pub(crate) plan: &'a Plan,
    pub(crate) kind: &'a K,
    pub(crate) direction: Direction,
}

impl<K: Kind> Lister<'_, K> {
    // The ends of a region, if it has any.
    fn ends(&self, region: usize) -> Option<Ends> {
        self.plan.regions().get(region).copied().flatten()
    }

    // Enters a region: the run is about to begin its first node.
    pub(crate) fn enter(&self, state: &mut State, region: usize) {
        state.forget(self.plan.nodes(), region);
        if let Some(ends) = self.ends(region) {
            state.put(region, Place::Before(ends.first_in(self.direction)));
        }
    }

    // Whether a node is the last of its region.
    fn is_last(&self, region: usize, node: usize) -> bool {
        self.ends(region)
            .is_some_and(|ends| ends.last_in(self.direction) == node)
    }

    // Goes on from a node that is finished: along every arc, and to the end of the region. A run and the list that what follows
    // it is added to are two parameters, here and below, since the run is moved on and the list only grows.
    fn leave(
        &self,
        run: Run<K::Value>,
        region: usize,
        node: usize,
        runs: &mut Vec<Run<K::Value>>,
    ) -> Result<(), AllocError> {
        if self.is_last(region, node) {
            runs.push(run.moved(region, Place::Done))?;
        }
        // a loop: no proof is made of closures that borrow from the plan, from the run and from here at once
        for arc in self.plan.arcs() {
            let arc = arc.turned(self.direction);
            if arc.from == node {
                runs.push(run.moved(region, Place::Before(arc.to)))?;
            }
        }
        Ok(())
    }

    // Begins a node. A step acts, and is finished with that; a fork enters its branches.
    fn begin(
        &self,
        run: Run<K::Value>,
        node: usize,
        runs: &mut Vec<Run<K::Value>>,
    ) -> Result<(), AllocError> {
        let mut next = run;
        if !next.state.begin(node) {
            return Ok(());
        }
        match self.plan.nodes().get(node) {
            Some(Node::Step(region, statement)) => {
                next.value = act(self.kind, self.kind.effect(node, *statement), run.value);
                self.leave(next, *region, node, runs)?;
            }
            Some(Node::Fork(region, first, count)) => {
                next.state.put(*region, Place::Within(node));
                for branch in branches(*first, *count) {
                    self.enter(&mut next.state, branch);
                }
                runs.push(next)?;
            }
            None => {}
        }
        Ok(())
    }

    // Whether a node is a fork whose branches are all done.
    fn is_finished(&self, state: &State, node: usize) -> bool {
        matches!(
            self.plan.nodes().get(node),
            Some(Node::Fork(_, first, count)) if state.all_done(branches(*first, *count))
        )
    }

    // A region that waits for the branches of a fork which are all done, and the fork.
    fn finished(&self, state: &State) -> Option<(usize, usize)> {
        state.places.iter().enumerate().find_map(|(region, place)| match *place {
            Place::Within(node) if self.is_finished(state, node) => Some((region, node)),
            _ => None,
        })
    }

    // Adds every run that goes one move further than this one, in whichever region. To finish a fork changes no value, so
    // that comes first.
    pub(crate) fn advance(
        &self,
        run: Run<K::Value>,
        runs: &mut Vec<Run<K::Value>>,
    ) -> Result<(), AllocError> {
        if let Some((region, node)) = self.finished(&run.state) {
            return self.leave(run, region, node, runs);
        }
        for place in run.state.places {
            if let Place::Before(node) = place {
                self.begin(run, node, runs)?;
            }
        }
        Ok(())
    }
}
