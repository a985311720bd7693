// Facts of 64 bits at once: what a step does to each bit is given by a mask and by the bits that it forces.
ghost use Rattle.std.specs.Prelude.{◌≡◌, ℕ};
ghost use Rattle.plan.specs.declared.statement.Statement.{Statement};
ghost use Rattle.bitset.specs.declared.bits.Bits.{Bits};
ghost use Rattle.kinds.specs.declared.effect.Effect.{Effect};

use bitset::bits::Bits;
use kinds::effect::Effect;
use plan::statement::Statement;

pub trait Masks {
    // what a step does, given by its number and statement
    ghost masks: { Self → ℕ → Statement → Effect Bits Bits };

    // A bit passes a step where the mask is 1, and is 1 behind it where the mask is 0; then it is met with the forced bit.
    fn mask(&self, node: usize, statement: Statement) -> Effect<Bits, Bits>
        ensures { result ≡ masks self.now node statement };
}
