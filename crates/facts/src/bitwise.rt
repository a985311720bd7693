// The kind of facts whose values and gates are words of bits.
ghost use Rattle.facts.specs.Masks.{bitwise};
ghost use Rattle.facts.specs.MaskLaws.{laws};

use crate::masks::Masks;
use bitset::bits::Bits;
use kinds::effect::Effect;
use kinds::kind::Kind;
use plan::statement::Statement;

#[derive(Clone, Copy)]
pub struct Bitwise<T>(pub T);

impl<T: Masks> Kind for Bitwise<T> {
    type Value = Bits;

    type Gate = Bits;

    ghost algebra = { λ k. bitwise (T.Masks.masks k.0) };

    ghost lawful = { λ k. laws _ };

    fn meet(&self, x: Bits, y: Bits) -> Bits {
        x.both(y)
    }

    fn top(&self) -> Bits {
        Bits::every()
    }

    fn same(&self, x: Bits, y: Bits) -> bool {
        x == y
    }

    fn open(&self) -> Bits {
        Bits::every()
    }

    fn shut(&self) -> Bits {
        Bits::none()
    }

    fn series(&self, g: Bits, h: Bits) -> Bits {
        g.both(h)
    }

    fn either(&self, g: Bits, h: Bits) -> Bits {
        g.any(h)
    }

    fn same_gate(&self, g: Bits, h: Bits) -> bool {
        g == h
    }

    fn through(&self, g: Bits, x: Bits) -> Bits {
        x.any(g.turned())
    }

    fn effect(&self, node: usize, statement: Statement) -> Effect<Bits, Bits> {
        self.0.mask(node, statement)
    }
}
