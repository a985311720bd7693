// Compares the values that the sweep finds with those that the reference lists.
use crate::tally::Comparisons;
use kinds::effects::passing;
use kinds::kind::Kind;
use plan::conditions::Conditions;
use plan::node::Direction;
use plan::stored::Plan;
use reference::listing::values;
use reference::unlisted::Unlisted;
use std::alloc::Global;
use sweep::sweeping::sweep;

// A whole plan, with what is known beside it, and the memory to compare it in.
#[derive(Drop)]
pub(crate) struct Case<'a> {
    pub(crate) heap: Global,
    pub(crate) plan: &'a Plan,
    pub(crate) conditions: Conditions,
}

// Counts which values are equal, and which are not the start value.
fn note_values<K: Kind>(
    kind: &K,
    start: K::Value,
    listed: &[K::Value],
    found: &[K::Value],
    count: &mut Comparisons,
) {
    for (one, other) in listed.iter().zip(found) {
        count.note(kind.same(*one, *other), !kind.same(*one, start));
    }
}

impl Case<'_> {
    // The values of the nodes, as the sweep finds them; in vectors, as small plans need no buffers of the full size.
    fn swept<K: Kind>(
        &self,
        kind: &K,
        direction: Direction,
        start: K::Value,
    ) -> Result<Vec<K::Value>, Unlisted> {
        let nodes = self.plan.nodes().len();
        let mut found = vec![in self.heap; kind.top(); nodes]?;
        let mut effects = vec![in self.heap; passing(kind); nodes]?;
        let mut regions = vec![in self.heap; passing(kind); self.plan.regions().len()]?;
        sweep(
            self.plan,
            kind,
            direction,
            start,
            &mut found,
            &mut effects,
            &mut regions,
        )?;
        Ok(found)
    }

    // Compares the values at every node in a direction, and answers those of the reference.
    pub(crate) fn compare_values<K: Kind>(
        &self,
        kind: &K,
        direction: Direction,
        start: K::Value,
        count: &mut Comparisons,
    ) -> Result<Vec<K::Value>, Unlisted> {
        let listed = values(self.heap, self.plan, kind, direction, start)?;
        let found = self.swept(kind, direction, start)?;
        note_values(kind, start, &listed, &found, count);
        Ok(listed)
    }

    // Compares the values at every node in both directions.
    pub(crate) fn compare_both_ways<K: Kind>(
        &self,
        kind: &K,
        start: K::Value,
        count: &mut Comparisons,
    ) -> Result<(), Unlisted> {
        self.compare_values(kind, Direction::Forward, start, count)?;
        self.compare_values(kind, Direction::Backward, start, count)?;
        Ok(())
    }
}
