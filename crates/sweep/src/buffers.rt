// A plan that is being swept, with the buffers that the sweep fills in.
ghost use Rattle.std.specs.Prelude.{◌≡◌, ◌+◌, ◌≤◌, length, take, drop};
ghost use Rattle.plan.specs.Paths.{Whole};
ghost use Rattle.plan.specs.Stored.{seen};

use kinds::effect::Effect;
use kinds::kind::Kind;
use plan::node::Direction;
use plan::stored::Plan;

// The plan is whole, and the buffers have exactly a slot for each node or region. Until they hold what the sweep finds, the
// slots of regions hold what each region forces, and those of values the side values, since a sweep takes no memory.
#[derive(Drop)]
pub(crate) struct Sweeping<'a, K: Kind> {
    pub(crate) plan: &'a Plan,
    pub(crate) kind: &'a K,
    pub(crate) direction: Direction,
    pub(crate) values: &'a mut [K::Value],
    pub(crate) effects: &'a mut [Effect<K::Gate, K::Value>],
    pub(crate) regions: &'a mut [Effect<K::Gate, K::Value>],
    ghost whole: { ∥ Whole (seen plan.now) ∥₁ },
    ghost value_slots: { length values.now ≡ length (seen plan.now).nodes },
    ghost effect_slots: { length effects.now ≡ length (seen plan.now).nodes },
    ghost region_slots: { length regions.now ≡ length (seen plan.now).ends },
}

impl<K: Kind> Sweeping<'_, K> {
    // The slots of the regions that are the branches of a fork, by the two numbers that a fork has of them.
    pub(crate) fn branches(&self, first: usize, count: usize) -> &[Effect<K::Gate, K::Value>]
        requires { first + count ≤ length (seen self.now.plan.now).ends }
        ensures { result.now ≡ take count (drop first self.now.regions.now) }
    {
        &self.regions[first..first + count]
    }
}
