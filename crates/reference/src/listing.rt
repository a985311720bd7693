// What the runs of a small plan leave, found by listing them.
ghost use Rattle.std.specs.Prelude.{◌≡◌, ◌⊎◌, IfOk, IfErr, vec_len, MatchResult};
ghost use Rattle.plan.specs.Stored.{seen};
ghost use Rattle.reference.specs.Listed.{Listed, NotListed};

use crate::moves::{Lister, Run};
use crate::state::{MOST_NODES, MOST_REGIONS, Place, State};
use crate::unlisted::Unlisted;
use kinds::kind::Kind;
use plan::node::Direction;
use plan::stored::Plan;
use std::alloc::{AllocError, Global};

// The most runs that are listed, with the beginnings of runs.
const BUDGET: usize = 50000;

impl<K: Kind> Lister<'_, K> {
    // The run that has only entered the outermost region.
    fn begun(&self, heap: Global, value: K::Value) -> Result<Vec<Run<K::Value>>, AllocError>
        ensures { IfOk result (λ runs. vec_len runs ≡ 1) }
    {
        let mut state = State::new();
        self.enter(&mut state, 0);
        vec![in heap; Run { state, value }; 1]
    }

    // Meets what a run leaves into the value of every node that it is about to begin.
    fn reach(&self, run: &Run<K::Value>, values: &mut [K::Value]) {
        for place in run.state.places {
            if let Place::Before(node) = place
                && node < values.len()
            {
                values[node] = self.kind.meet(values[node], run.value);
            }
        }
    }

    // Lists the runs that go on from those given, and meets what they leave.
    fn list(&self, runs: &mut Vec<Run<K::Value>>, values: &mut [K::Value]) -> Result<(), Unlisted>
        ensures { IfErr result (λ e. (e ≡ Unlisted.TooMany) ⊎ (e ≡ Unlisted.NoMemory)) }
    {
        for _listed in 0..BUDGET {
            let Some(run) = runs.pop() else {
                return Ok(());
            };
            self.reach(&run, values);
            self.advance(run, runs)?;
        }
        Err(Unlisted::TooMany)
    }
}

// For every node of a small plan, the meet of what the runs that reach it leave of the start value.
pub fn values<K: Kind>(
    heap: Global,
    plan: &Plan,
    kind: &K,
    direction: Direction,
    start: K::Value,
) -> Result<Vec<K::Value>, Unlisted>
    ensures { MatchResult result (λ values. Listed (seen plan.now) (vec_len values)) (λ e. NotListed (seen plan.now) e) }
{
    plan.whole()?;
    if plan.nodes().len() > MOST_NODES || plan.regions().len() > MOST_REGIONS {
        return Err(Unlisted::TooLarge);
    }
    let lister = Lister {
        plan,
        kind,
        direction,
    };
    let mut runs = lister.begun(heap, start)?;
    // the top is asked for each node: `vec!` would clone it, and of a clone no kind promises anything
    let mut values = Vec::new(heap);
    values.resize_with(plan.nodes().len(), || kind.top())?;
    lister.list(&mut runs, &mut values)?;
    Ok(values)
}
