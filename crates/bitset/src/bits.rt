// A word of 64 bits.
ghost use Rattle.std.specs.Prelude.{◌^◌, ◌<◌};

#[derive(Clone, Copy, PartialEq, Eq)]
pub struct Bits {
    pub(crate) word: u64,
    ghost fits: { word < 2 ^ 64 },
}
