// Effects under any kind of fact.
ghost use Rattle.std.specs.Prelude.{◌≡◌, Decides};
ghost use Rattle.kinds.specs.Effects.{act, passing, blocked, followed, either_way, beside};

use crate::effect::Effect;
use crate::kind::Kind;

// What an effect makes of a value.
pub fn act<K: Kind>(kind: &K, effect: Effect<K::Gate, K::Value>, value: K::Value) -> K::Value
    ensures { result ≡ act (K.Kind.algebra kind.now) effect value }
{
    kind.meet(kind.through(effect.gate, value), effect.forced)
}

// The effect that leaves every value as it is.
pub fn passing<K: Kind>(kind: &K) -> Effect<K::Gate, K::Value>
    ensures { result ≡ passing (K.Kind.algebra kind.now) }
{
    Effect {
        gate: kind.open(),
        forced: kind.top(),
    }
}

// The effect that makes the top of every value.
pub fn blocked<K: Kind>(kind: &K) -> Effect<K::Gate, K::Value>
    ensures { result ≡ blocked (K.Kind.algebra kind.now) }
{
    Effect {
        gate: kind.shut(),
        forced: kind.top(),
    }
}

// One effect, and then another.
pub fn followed<K: Kind>(
    kind: &K,
    first: Effect<K::Gate, K::Value>,
    second: Effect<K::Gate, K::Value>,
) -> Effect<K::Gate, K::Value>
    ensures { result ≡ followed (K.Kind.algebra kind.now) first second }
{
    Effect {
        gate: kind.series(first.gate, second.gate),
        forced: kind.meet(kind.through(second.gate, first.forced), second.forced),
    }
}

// One effect or another.
pub fn either_way<K: Kind>(
    kind: &K,
    one: Effect<K::Gate, K::Value>,
    other: Effect<K::Gate, K::Value>,
) -> Effect<K::Gate, K::Value>
    ensures { result ≡ either_way (K.Kind.algebra kind.now) one other }
{
    Effect {
        gate: kind.either(one.gate, other.gate),
        forced: kind.meet(one.forced, other.forced),
    }
}

// Two effects at once, in whatever order.
pub fn beside<K: Kind>(
    kind: &K,
    one: Effect<K::Gate, K::Value>,
    other: Effect<K::Gate, K::Value>,
) -> Effect<K::Gate, K::Value>
    ensures { result ≡ beside (K.Kind.algebra kind.now) one other }
{
    let forced = kind.meet(one.forced, other.forced);
    Effect {
        gate: kind.series(one.gate, other.gate),
        forced,
    }
}

// Whether two effects are equal, by the comparisons of the kind, as those are not `==` (see `Kind::same`).
pub fn same_effect<K: Kind>(
    kind: &K,
    one: Effect<K::Gate, K::Value>,
    other: Effect<K::Gate, K::Value>,
) -> bool
    ensures { Decides result (one ≡ other) }
{
    kind.same_gate(one.gate, other.gate) && kind.same(one.forced, other.forced)
}
