// What sweeps of the sample plan leave at its six nodes.
ghost use Rattle.kinds.specs.Room.{EffectsFit};

use bitset::bits::Bits;
use expressions::numbering::number;
use facts::available::Available;
use facts::bitwise::Bitwise;
use facts::constant::Constant;
use facts::dead::Dead;
use facts::fixed::Fixed;
use kinds::effects::passing;
use kinds::kind::Kind;
use plan::node::Direction;
use plan::rows::draw;
use plan::statement::Statement;
use plan::stored::Plan;
use sample::CALLS;
use std::test::Fail;
use sweep::sweeping::sweep;

// The sample plan with other steps in its second branch and at its end.
pub(crate) fn draw_with(
    rt: &HostRuntime,
    beside: Statement,
    last: Statement,
) -> Result<Plan, Fail> {
    let mut plan = draw(rt.alloc(), &CALLS)?.plan;
    plan.change(5, beside)?;
    plan.change(2, last)?;
    Ok(plan)
}

// The values at the nodes that a sweep leaves in slots that held `before`. The library has its like for plans of any size, by
// a private function, since it asks for room.
pub(crate) fn values<K: Kind>(
    plan: &Plan,
    kind: &K,
    direction: Direction,
    start: K::Value,
    before: K::Value,
) -> Result<[K::Value; 6], Fail>
    requires { EffectsFit K.Gate.row K.Value.row 6 }
{
    let mut values = [before; 6];
    let mut effects = [passing(kind); 6];
    let mut regions = [passing(kind); 3];
    sweep(
        plan,
        kind,
        direction,
        start,
        &mut values,
        &mut effects,
        &mut regions,
    )?;
    Ok(values)
}

// Whether the probe's reading is available at each node, if it is not at the start.
pub(crate) fn available(plan: &Plan, direction: Direction) -> Result<[bool; 6], Fail> {
    let kind = Bitwise(Available {
        expressions: number(plan.nodes())?,
    });
    let values = values(plan, &kind, direction, Bits::none(), Bits::every())?;
    Ok(values.map(|bits| bits.bit(0)))
}

// Whether a variable is dead at each node, where `start` tells what is dead at the start.
pub(crate) fn dead(
    plan: &Plan,
    direction: Direction,
    start: Bits,
    variable: usize,
) -> Result<[bool; 6], Fail> {
    let values = values(plan, &Bitwise(Dead {}), direction, start, Bits::none())?;
    Ok(values.map(|bits| bits.bit(variable)))
}

// The value of variable 2 at each node, where `start` tells it at the start.
pub(crate) fn fixed(
    plan: &Plan,
    direction: Direction,
    start: Constant,
) -> Result<[Constant; 6], Fail> {
    let kind = Fixed { variable: 2 };
    values(plan, &kind, direction, start, Constant::Unfixed)
}
