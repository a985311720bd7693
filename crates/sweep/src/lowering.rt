// Lowers the effects of the nodes of a region along its arcs, until no arc brings anything new.
ghost use Rattle.std.specs.Prelude.{◌≡◌, ◌<◌, length, MatchBool};
ghost use Rattle.plan.specs.Stored.{seen};
ghost use Rattle.sweep.specs.Kept.{WritesEffects};
ghost use Rattle.sweep.specs.Rounds.{Lowers, Settled, SettledTo, Lowering, rank_sum};

use crate::buffers::Sweeping;
use kinds::effects::{either_way, followed, same_effect};
use kinds::kind::Kind;
use plan::node::Arc;

impl<K: Kind> Sweeping<'_, K> {
    // Takes one arc into account, if it lies in the region. Says whether the node that it leads to is lowered.
    fn lower(&mut self, region: usize, arc: Arc) -> bool
        requires { (arc.from < length (seen self.old.plan.now).nodes) × (arc.to < length (seen self.old.plan.now).nodes) }
        ensures writes { WritesEffects self.old self.new }
        ensures told { let a = K.Kind.algebra self.old.kind.now in let p = seen self.old.plan.now in MatchBool result
            (Lowers a p self.old.regions.now region self.old.effects.now self.new.effects.now arc)
            ((self.new.effects.now ≡ self.old.effects.now) × Settled a p self.old.regions.now region self.old.effects.now arc) }
    {
        if self.plan.nodes()[arc.from].region() != region {
            return false;
        }
        let along = followed(
            self.kind,
            self.effects[arc.from],
            self.node_effect(arc.from),
        );
        let old = self.effects[arc.to];
        let new = either_way(self.kind, old, along);
        if same_effect(self.kind, new, old) {
            return false;
        }
        self.effects[arc.to] = new;
        true
    }

    // Takes every arc of the region into account once. Says whether an effect was lowered.
    fn round(&mut self, region: usize) -> bool
        ensures writes { WritesEffects self.old self.new }
        ensures lowering { let a = K.Kind.algebra self.old.kind.now in let p = seen self.old.plan.now in
            Lowering a p self.old.regions.now self.old.direction region self.old.effects.now self.new.effects.now }
        ensures told { let a = K.Kind.algebra self.old.kind.now in let p = seen self.old.plan.now in MatchBool result
            (rank_sum a self.new.effects.now < rank_sum a self.old.effects.now)
            (SettledTo a p self.old.regions.now self.old.direction region self.new.effects.now (length p.arcs)) }
    {
        // A loop: of a closure that changes the effects, a proof would know nothing behind a chain.
        let mut changed = false;
        let plan = self.plan;
        for arc in plan.arcs() {
            if self.lower(region, arc.turned(self.direction)) {
                changed = true;
            }
        }
        changed
    }

    // Goes round until no arc of the region brings anything new.
    pub(crate) fn settle(&mut self, region: usize)
        ensures writes { WritesEffects self.old self.new }
        ensures lowering { let a = K.Kind.algebra self.old.kind.now in let p = seen self.old.plan.now in
            Lowering a p self.old.regions.now self.old.direction region self.old.effects.now self.new.effects.now }
        ensures settled { let a = K.Kind.algebra self.old.kind.now in let p = seen self.old.plan.now in
            SettledTo a p self.old.regions.now self.old.direction region self.new.effects.now (length p.arcs) }
    {
        while self.round(region) {}
    }
}
