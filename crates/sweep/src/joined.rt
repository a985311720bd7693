// What a node does as a whole.
ghost use Rattle.std.specs.Prelude.{◌≡◌, ◌<◌, length};
ghost use Rattle.plan.specs.Stored.{seen};
ghost use Rattle.sweep.specs.Slots.{joint_of};
ghost use Rattle.sweep.specs.Rounds.{node_does};

use crate::buffers::Sweeping;
use kinds::effect::Effect;
use kinds::effects::{beside, passing};
use kinds::kind::Kind;
use plan::node::Node;

// The joint effect of branches that run side by side: their gates in series, and their forced values met.
pub fn joint<K: Kind>(kind: &K, branches: &[Effect<K::Gate, K::Value>]) -> Effect<K::Gate, K::Value>
    ensures { result ≡ joint_of (K.Kind.algebra kind.now) branches.now }
{
    branches
        .iter()
        .rev()
        .fold(passing(kind), |all, branch| beside(kind, *branch, all))
}

impl<K: Kind> Sweeping<'_, K> {
    // What a node does: a step its effect, a fork the joint effect of its branches.
    pub(crate) fn node_effect(&self, node: usize) -> Effect<K::Gate, K::Value>
        requires { node < length (seen self.now.plan.now).nodes }
        ensures { result ≡ node_does (K.Kind.algebra self.now.kind.now) (seen self.now.plan.now) self.now.regions.now node }
    {
        match self.plan.nodes()[node] {
            Node::Step(_, statement) => self.kind.effect(node, statement),
            Node::Fork(_, first, count) => joint(self.kind, self.branches(first, count)),
        }
    }
}
