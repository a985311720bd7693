// What sweeps find, in buffers of the full size.
ghost use Rattle.std.specs.Prelude.{MatchResult};
ghost use Rattle.plan.specs.Paths.{Fault};
ghost use Rattle.plan.specs.Stored.{seen};
ghost use Rattle.kinds.specs.Room.{EffectsFit};
ghost use Rattle.report.specs.Finding.{Finds};

use kinds::effects::passing;
use kinds::kind::Kind;
use plan::node::Direction;
use plan::stored::{NODES, Plan, REGIONS};
use refusals::refusal::Refusal;
use sweep::sweeping::sweep;

// Fills in, for every node, what a sweep of the plan finds. The values are lent, since an array that is answered is copied on
// its way, and lies on the stack more than once. It asks for room (`EffectsFit`), which a public function could not, and so
// the tests of the sweep have a function of their own.
pub(crate) fn find<K: Kind>(
    plan: &Plan,
    kind: &K,
    direction: Direction,
    start: K::Value,
    values: &mut [K::Value; NODES],
) -> Result<(), Refusal>
    requires { EffectsFit K.Gate.row K.Value.row 256 }
    ensures { MatchResult result
        (λ _. Finds (K.Kind.algebra kind.now) (seen plan.now) direction start values.new)
        (λ e. Fault (seen plan.now) e) }
{
    let mut effects = [passing(kind); NODES];
    let mut regions = [passing(kind); REGIONS];
    sweep(
        plan,
        kind,
        direction,
        start,
        values,
        &mut effects,
        &mut regions,
    )
}
