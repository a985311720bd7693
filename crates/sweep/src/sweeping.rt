// The sweep.
ghost use Rattle.std.specs.Prelude.{◌≡◌, length, IfOk, MatchResult};
ghost use Rattle.plan.specs.Paths.{Whole};
ghost use Rattle.plan.specs.Stored.{seen};
ghost use Rattle.sweep.specs.Kept.{Same};
ghost use Rattle.sweep.specs.Swept.{ValuesMeet, NodesMeet, RegionsMeet, Swept, Refused, HasRoom};

use crate::buffers::Sweeping;
use kinds::effect::Effect;
use kinds::kind::Kind;
use plan::node::Direction;
use plan::stored::Plan;
use refusals::refusal::Refusal;

impl<K: Kind> Sweeping<'_, K> {
    // Fills in all buffers. That the plan is whole is asked for once more, since what is meant by the meets rests on the paths
    // themselves, and the struct only keeps that there are such paths.
    fn fill(&mut self, start: K::Value)
        requires { Whole (seen self.old.plan.now) }
        ensures same { Same self.old self.new }
        ensures values { let a = K.Kind.algebra self.old.kind.now in let p = seen self.old.plan.now in
            ValuesMeet a p self.old.direction start self.new.values.now }
        ensures nodes { let a = K.Kind.algebra self.old.kind.now in let p = seen self.old.plan.now in
            NodesMeet a p self.old.direction self.new.effects.now }
        ensures regions { let a = K.Kind.algebra self.old.kind.now in let p = seen self.old.plan.now in
            RegionsMeet a p self.old.direction self.new.regions.now }
    {
        self.gather();
        self.fill_sides();
        self.solve();
        self.fill_values(start);
    }
}

// Sweeps a whole plan into buffers that have exactly a slot for each node or region. It is a function of its own because a
// proof learns what a struct leaves in a slice that it holds only where the slice is lent whole.
fn sweep_whole<K: Kind>(
    plan: &Plan,
    kind: &K,
    direction: Direction,
    start: K::Value,
    values: &mut [K::Value],
    effects: &mut [Effect<K::Gate, K::Value>],
    regions: &mut [Effect<K::Gate, K::Value>],
)
    requires whole { Whole (seen plan.now) }
    requires sizes { (length values.old ≡ length (seen plan.now).nodes) × (length effects.old ≡ length (seen plan.now).nodes) × (length regions.old ≡ length (seen plan.now).ends) }
    ensures values { ValuesMeet (K.Kind.algebra kind.now) (seen plan.now) direction start values.new }
    ensures nodes { NodesMeet (K.Kind.algebra kind.now) (seen plan.now) direction effects.new }
    ensures regions { RegionsMeet (K.Kind.algebra kind.now) (seen plan.now) direction regions.new }
{
    let mut sweeping = Sweeping {
        plan,
        kind,
        direction,
        values,
        effects,
        regions,
    };
    sweeping.fill(start);
}

// Finds, for every node, the meet over all interleaved runs that reach it of what each leaves of the start value; and
// effects for nodes and regions that act as the meets over approaches and full words. The buffers are lent one by one, as a
// sweep is asked for.
pub fn sweep<K: Kind>(
    plan: &Plan,
    kind: &K,
    direction: Direction,
    start: K::Value,
    values: &mut [K::Value],
    effects: &mut [Effect<K::Gate, K::Value>],
    regions: &mut [Effect<K::Gate, K::Value>],
) -> Result<(), Refusal>
    ensures swept { MatchResult result
        (λ _. Swept (K.Kind.algebra kind.now) (seen plan.now) direction start values.old values.new effects.old effects.new regions.old regions.new)
        (λ e. Refused (seen plan.now) (length values.old) (length effects.old) (length regions.old) e
        × ((values.new ≡ values.old) × (effects.new ≡ effects.old) × (regions.new ≡ regions.old))) }
    ensures room { IfOk result (λ _. HasRoom (seen plan.now) (length values.old) (length effects.old) (length regions.old)) }
{
    plan.whole()?;
    let nodes = plan.nodes().len();
    let areas = plan.regions().len();
    if values.len() < nodes || effects.len() < nodes || regions.len() < areas {
        return Err(Refusal::Short);
    }
    sweep_whole(
        plan,
        kind,
        direction,
        start,
        &mut values[..nodes],
        &mut effects[..nodes],
        &mut regions[..areas],
    );
    Ok(())
}
