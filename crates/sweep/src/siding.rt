// Side values: what may be forced beside a region. Until the values are filled in, the slot of a region's first node holds
// the region's side value.
ghost use Rattle.std.specs.Prelude.{◌≡◌, ◌+◌, ◌<◌, ◌≤◌, length};
ghost use Rattle.plan.specs.Stored.{seen};
ghost use Rattle.sweep.specs.Kept.{WritesValues};
ghost use Rattle.sweep.specs.Valuing.{home as home_of, met_but, EnteredTo, SidesTo};

use crate::buffers::Sweeping;
use crate::forcing::meet_others;
use kinds::effect::Effect;
use kinds::kind::Kind;
use plan::node::Node;

// The side value of a branch of a fork: that of the fork's region, met with what the other branches force.
fn side_value<K: Kind>(
    kind: &K,
    outer: K::Value,
    branches: &[Effect<K::Gate, K::Value>],
    branch: usize,
) -> K::Value
    requires { branch < length branches.now }
    ensures { result ≡ (K.Kind.algebra kind.now).meet outer (met_but (K.Kind.algebra kind.now) branches.now branch) }
{
    kind.meet(outer, meet_others(kind, branches, branch))
}

impl<K: Kind> Sweeping<'_, K> {
    // The first node of a region.
    pub(crate) fn home(&self, region: usize) -> usize
        requires { region < length (seen self.now.plan.now).ends }
        ensures is { result ≡ home_of (seen self.now.plan.now) region }
        ensures there { result < length (seen self.now.plan.now).nodes }
    {
        match self.plan.regions()[region] {
            Some(ends) => ends.first,
            None => 0,
        }
    }

    // Gives each branch of a fork its side value.
    fn enter(&mut self, first: usize, count: usize, outer: K::Value)
        requires { first + count ≤ length (seen self.old.plan.now).ends }
        ensures writes { WritesValues self.old self.new }
        ensures entered { let a = K.Kind.algebra self.old.kind.now in let p = seen self.old.plan.now in
            EnteredTo a p self.old.regions.now first count outer self.old.values.now self.new.values.now count }
    {
        // By number, since it tells a branch from the others.
        for i in 0..count {
            let node = self.home(first + i);
            self.values[node] = side_value(self.kind, outer, self.branches(first, count), i);
        }
    }

    // Fills in the side value of every region. A fork stands before the forks in its branches, so one pass does it.
    pub(crate) fn fill_sides(&mut self)
        ensures writes { WritesValues self.old self.new }
        ensures sides { let a = K.Kind.algebra self.old.kind.now in let p = seen self.old.plan.now in
            SidesTo a p self.old.regions.now self.new.values.now (length p.nodes) }
    {
        let outermost = self.home(0);
        self.values[outermost] = self.kind.top();
        let plan = self.plan;
        for node in plan.nodes() {
            if let Node::Fork(region, first, count) = *node {
                let outer = self.values[self.home(region)];
                self.enter(first, count, outer);
            }
        }
    }
}
