// Two things side by side. Two kinds of fact side by side are one kind, whose values and gates are pairs.
ghost use Rattle.pairs.specs.Pairs.{paired};
ghost use Rattle.pairs.specs.PairLaws.{laws};

use kinds::effect::Effect;
use kinds::kind::Kind;
use plan::statement::Statement;

#[derive(Clone, Copy, PartialEq, Eq, Debug)]
pub struct Pair<L, R> {
    pub left: L,
    pub right: R,
}

impl<A: Kind, B: Kind> Kind for Pair<A, B> {
    type Value = Pair<A::Value, B::Value>;

    type Gate = Pair<A::Gate, B::Gate>;

    ghost algebra = { λ k. paired (A.Kind.algebra k.left) (B.Kind.algebra k.right) };

    ghost lawful = { λ k. laws (A.Kind.lawful k.left) (B.Kind.lawful k.right) };

    fn meet(&self, x: Self::Value, y: Self::Value) -> Self::Value {
        Pair {
            left: self.left.meet(x.left, y.left),
            right: self.right.meet(x.right, y.right),
        }
    }

    fn top(&self) -> Self::Value {
        Pair {
            left: self.left.top(),
            right: self.right.top(),
        }
    }

    fn same(&self, x: Self::Value, y: Self::Value) -> bool {
        self.left.same(x.left, y.left) && self.right.same(x.right, y.right)
    }

    fn open(&self) -> Self::Gate {
        Pair {
            left: self.left.open(),
            right: self.right.open(),
        }
    }

    fn shut(&self) -> Self::Gate {
        Pair {
            left: self.left.shut(),
            right: self.right.shut(),
        }
    }

    fn series(&self, g: Self::Gate, h: Self::Gate) -> Self::Gate {
        Pair {
            left: self.left.series(g.left, h.left),
            right: self.right.series(g.right, h.right),
        }
    }

    fn either(&self, g: Self::Gate, h: Self::Gate) -> Self::Gate {
        Pair {
            left: self.left.either(g.left, h.left),
            right: self.right.either(g.right, h.right),
        }
    }

    fn same_gate(&self, g: Self::Gate, h: Self::Gate) -> bool {
        self.left.same_gate(g.left, h.left) && self.right.same_gate(g.right, h.right)
    }

    fn through(&self, g: Self::Gate, x: Self::Value) -> Self::Value {
        Pair {
            left: self.left.through(g.left, x.left),
            right: self.right.through(g.right, x.right),
        }
    }

    fn effect(&self, node: usize, statement: Statement) -> Effect<Self::Gate, Self::Value> {
        let left = self.left.effect(node, statement);
        let right = self.right.effect(node, statement);
        Effect {
            gate: Pair {
                left: left.gate,
                right: right.gate,
            },
            forced: Pair {
                left: left.forced,
                right: right.forced,
            },
        }
    }
}
