// The values of four variables at once: pairs of kinds nest.
ghost use Rattle.std.specs.Prelude.{◌≡◌};
ghost use Rattle.kinds.specs.Effects.{act as acted};
ghost use Rattle.facts.specs.Four.{four};

use crate::constant::Constant;
use crate::fixed::Fixed;
use kinds::effects::act;
use kinds::kind::Kind;
use pairs::pair::Pair;
use plan::statement::Statement;

pub type TwoFixed = Pair<Fixed, Fixed>;

pub type TwoConstants = Pair<Constant, Constant>;

// What is known of four variables behind a step, by what is known before it.
pub fn behind(
    kind: &Pair<TwoFixed, TwoFixed>,
    node: usize,
    statement: Statement,
    before: Pair<TwoConstants, TwoConstants>,
) -> Pair<TwoConstants, TwoConstants>
    ensures { result ≡ acted (four kind.now) ((four kind.now).effect node statement) before }
{
    act(kind, kind.effect(node, statement), before)
}
