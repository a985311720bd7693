// Solves a plan region by region, the highest number first, since the branches of a fork have higher numbers than its region.
ghost use Rattle.std.specs.Prelude.{◌≡◌, ℕ, ◌<◌, length, Some, ◌≢◌};
ghost use Rattle.plan.specs.Drawn.{node_at, ends_at, region_of};
ghost use Rattle.plan.specs.Stored.{seen};
ghost use Rattle.kinds.specs.Effects.{passing as passing_effect};
ghost use Rattle.runs.specs.Actions.{steps_of};
ghost use Rattle.runs.specs.Scheme.{Solved, initial as initial_effect};
ghost use Rattle.sweep.specs.Kept.{Same, WritesEffects};
ghost use Rattle.sweep.specs.Slots.{slot, PutTo};
ghost use Rattle.sweep.specs.Solving.{SolvedIn};

use crate::buffers::Sweeping;
use kinds::effect::Effect;
use kinds::effects::{blocked, followed, passing};
use kinds::kind::Kind;
use plan::node::Ends;

// Where the effect of a node starts: open at the first node of the region, shut elsewhere.
fn initial<K: Kind>(kind: &K, first: usize, node: usize) -> Effect<K::Gate, K::Value>
    ensures { result ≡ initial_effect (K.Kind.algebra kind.now) first node }
{
    if node == first {
        passing(kind)
    } else {
        blocked(kind)
    }
}

impl<K: Kind> Sweeping<'_, K> {
    // Puts the effects of the nodes of a region to where they start.
    fn start(&mut self, region: usize, first: usize)
        ensures writes { WritesEffects self.old self.new }
        ensures put { let a = K.Kind.algebra self.old.kind.now in let p = seen self.old.plan.now in
            PutTo (passing_effect a) p region (initial_effect a first) self.old.effects.now self.new.effects.now (length p.nodes) }
    {
        // By number, since where an effect starts depends on it.
        for (n, node) in self.plan.nodes().iter().enumerate() {
            if node.region() == region {
                self.effects[n] = initial(self.kind, first, n);
            }
        }
    }

    // Solves one region, once the regions of higher number are solved.
    fn solve_region(&mut self, region: usize, ends: Ends)
        requires { ends_at (seen self.old.plan.now) region ≡ Some ends }
        ensures same { Same self.old self.new }
        ensures values { self.new.values.now ≡ self.old.values.now }
        ensures solved { let a = K.Kind.algebra self.old.kind.now in let p = seen self.old.plan.now in
            SolvedIn a p self.old.direction region self.new.effects.now self.new.regions.now }
        ensures nodes { let a = K.Kind.algebra self.old.kind.now in let p = seen self.old.plan.now in
            (n : ℕ) → n < length p.nodes → (region_of (node_at p n) ≢ region) → slot a self.new.effects.now n ≡ slot a self.old.effects.now n }
        ensures regions { let a = K.Kind.algebra self.old.kind.now in
            (q : ℕ) → (q ≢ region) → slot a self.new.regions.now q ≡ slot a self.old.regions.now q }
    {
        let first = ends.first_in(self.direction);
        let last = ends.last_in(self.direction);
        self.start(region, first);
        self.settle(region);
        self.regions[region] = followed(self.kind, self.effects[last], self.node_effect(last));
    }

    // Solves every region: the effect of every node and of every region.
    pub(crate) fn solve(&mut self)
        ensures same { Same self.old self.new }
        ensures values { self.new.values.now ≡ self.old.values.now }
        ensures solved { let a = K.Kind.algebra self.old.kind.now in let p = seen self.old.plan.now in
            Solved a p self.old.direction (steps_of a p) (slot a self.new.effects.now) (slot a self.new.regions.now) }
    {
        // By number, since solving a region writes its slots.
        for region in (0..self.regions.len()).rev() {
            if let Some(ends) = self.plan.regions()[region] {
                self.solve_region(region, ends);
            }
        }
    }
}
