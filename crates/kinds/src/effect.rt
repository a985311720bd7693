// What a step, or a whole way through a plan, does to a value: the value passes the gate, and is met with the forced value.
#[derive(Clone, Copy)]
pub struct Effect<G, V> {
    pub gate: G,
    pub forced: V,
}
