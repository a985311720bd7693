// What a step can compute: what a probe shows, or a number made of two variables.
#[derive(Clone, Copy, PartialEq, Eq)]
pub enum Expression {
    Probe(u32),
    Add(u32, u32),
    Sub(u32, u32),
    Min(u32, u32),
    Max(u32, u32),
}
