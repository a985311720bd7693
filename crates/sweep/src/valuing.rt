// The values at the nodes, from the outermost region inwards.
ghost use Rattle.std.specs.Prelude.{◌≡◌, ◌<◌, length, Decides};
ghost use Rattle.plan.specs.Drawn.{node_at};
ghost use Rattle.plan.specs.Stored.{seen};
ghost use Rattle.kinds.specs.Effects.{act as act_of};
ghost use Rattle.sweep.specs.Kept.{WritesValues};
ghost use Rattle.sweep.specs.Slots.{slot, PutTo};
ghost use Rattle.sweep.specs.Valuing.{Branch, ValuedTo};

use crate::buffers::Sweeping;
use kinds::effects::act;
use kinds::kind::Kind;
use plan::node::Node;

// Whether a region is a branch of a node.
fn has_branch(node: Node, region: usize) -> bool
    ensures { Decides result (Branch node region) }
{
    match node {
        Node::Step(_, _) => false,
        Node::Fork(_, first, count) => first <= region && region - first < count,
    }
}

impl<K: Kind> Sweeping<'_, K> {
    // The fork that a region is a branch of.
    fn fork_of(&self, region: usize) -> usize
        requires { (0 < region) × (region < length (seen self.now.plan.now).ends) }
        ensures { (result < length (seen self.now.plan.now).nodes) × Branch (node_at (seen self.now.plan.now) result) region }
    {
        self.plan
            .nodes()
            .iter()
            .position(|node| has_branch(*node, region))
            .unwrap()
    }

    // Fills in the values of the nodes of one region. Always inlined: as long as a method of the struct is called, all of its
    // fields stay in memory, in every loop of a sweep.
    #[inline(always)]
    fn fill_region(&mut self, region: usize, base: K::Value, side: K::Value)
        ensures writes { WritesValues self.old self.new }
        ensures put { let a = K.Kind.algebra self.old.kind.now in let p = seen self.old.plan.now in
            PutTo a.top p region (λ n. a.meet (act_of a (slot a self.old.effects.now n) base) side) self.old.values.now self.new.values.now (length p.nodes) }
    {
        // By number, since the checker does not cover an iterator over slots that a field lends. It is like `start`; one
        // function over both would be given the slots and a closure over the others, with a contract for each, in place of two
        // loops of three lines.
        for (n, node) in self.plan.nodes().iter().enumerate() {
            if node.region() == region {
                self.values[n] = self.kind.meet(act(self.kind, self.effects[n], base), side);
            }
        }
    }

    // Fills in the value of every node, region by region. A region starts from the value at its fork, which lies in a region
    // of lower number; the outermost from the start value.
    pub(crate) fn fill_values(&mut self, start: K::Value)
        ensures writes { WritesValues self.old self.new }
        ensures valued { let a = K.Kind.algebra self.old.kind.now in let p = seen self.old.plan.now in
            ValuedTo a p start self.old.effects.now self.old.values.now self.new.values.now (length p.ends) }
    {
        // By number, since a region's first node, its fork and its nodes are all found by it.
        for region in 0..self.plan.regions().len() {
            let side = self.values[self.home(region)];
            let base = if region == 0 {
                start
            } else {
                self.values[self.fork_of(region)]
            };
            self.fill_region(region, base, side);
        }
    }
}
