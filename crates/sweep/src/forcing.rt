// What the steps in each region force, however deep.
ghost use Rattle.std.specs.Prelude.{◌≡◌, ℕ, ◌<◌, length};
ghost use Rattle.plan.specs.Drawn.{node_at};
ghost use Rattle.plan.specs.Stored.{seen};
ghost use Rattle.runs.specs.Actions.{steps_of};
ghost use Rattle.runs.specs.Scheme.{node_forces, all_force};
ghost use Rattle.sweep.specs.Kept.{Same};
ghost use Rattle.sweep.specs.Slots.{forced_slot};
ghost use Rattle.sweep.specs.Valuing.{met_of, met_but, ForcedFrom};

use crate::buffers::Sweeping;
use kinds::effect::Effect;
use kinds::kind::Kind;
use plan::node::Node;

// The meet of what a row of effects forces.
pub(crate) fn meet_all<K: Kind>(kind: &K, row: &[Effect<K::Gate, K::Value>]) -> K::Value
    ensures { result ≡ met_of (K.Kind.algebra kind.now) row.now }
{
    row.iter()
        .rev()
        .fold(kind.top(), |all, effect| kind.meet(effect.forced, all))
}

// The meet of what all but one of a row of effects force.
pub(crate) fn meet_others<K: Kind>(
    kind: &K,
    row: &[Effect<K::Gate, K::Value>],
    one: usize,
) -> K::Value
    requires { one < length row.now }
    ensures { result ≡ met_but (K.Kind.algebra kind.now) row.now one }
{
    row[..one]
        .iter()
        .rev()
        .fold(meet_all(kind, &row[one + 1..]), |all, effect| {
            kind.meet(effect.forced, all)
        })
}

impl<K: Kind> Sweeping<'_, K> {
    // What a node adds: a step what it forces, a fork what its branches force.
    fn forced_by(&self, node: usize) -> K::Value
        requires { node < length (seen self.now.plan.now).nodes }
        ensures { let a = K.Kind.algebra self.now.kind.now in let p = seen self.now.plan.now in
            result ≡ node_forces a (steps_of a p) (forced_slot a self.now.regions.now) node (node_at p node) }
    {
        match self.plan.nodes()[node] {
            Node::Step(_, statement) => self.kind.effect(node, statement).forced,
            Node::Fork(_, first, count) => meet_all(self.kind, self.branches(first, count)),
        }
    }

    // What the nodes of a region force together, once that is known of the regions of higher number.
    fn region_forces(&self, region: usize) -> K::Value
        ensures { let a = K.Kind.algebra self.now.kind.now in let p = seen self.now.plan.now in
            result ≡ all_force a (steps_of a p) (forced_slot a self.now.regions.now) region 0 p.nodes }
    {
        // By number, since what a node forces is found by it.
        let mut all = self.kind.top();
        for (n, node) in self.plan.nodes().iter().enumerate() {
            if node.region() == region {
                all = self.kind.meet(all, self.forced_by(n));
            }
        }
        all
    }

    // Puts what the steps in each region force into the region's slot, the highest number first.
    pub(crate) fn gather(&mut self)
        ensures same { Same self.old self.new }
        ensures forced { ForcedFrom (K.Kind.algebra self.old.kind.now) (seen self.old.plan.now) 0 self.new.regions.now }
    {
        // By number, since each slot is written from those of higher number.
        for region in (0..self.regions.len()).rev() {
            let forced = self.region_forces(region);
            self.regions[region] = Effect {
                gate: self.kind.shut(),
                forced,
            };
        }
    }
}
