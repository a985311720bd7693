// The kind of facts about the one value that a variable has.
ghost use Rattle.facts.specs.Fixed.{fixed};
ghost use Rattle.facts.specs.FixedLaws.{laws};

use crate::constant::{Constant, Door};
use expressions::variables::assigns;
use kinds::effect::Effect;
use kinds::kind::Kind;
use plan::statement::Statement;

#[derive(Clone, Copy)]
pub struct Fixed {
    pub variable: u32,
}

impl Kind for Fixed {
    type Value = Constant;

    type Gate = Door;

    ghost algebra = { λ k. fixed k.variable };

    ghost lawful = { λ k. laws k.variable };

    fn meet(&self, x: Constant, y: Constant) -> Constant {
        match (x, y) {
            (Constant::Unknown, _) => y,
            (_, Constant::Unknown) => x,
            (Constant::Number(m), Constant::Number(n)) => {
                if m == n { x } else { Constant::Unfixed }
            }
            _ => Constant::Unfixed,
        }
    }

    fn top(&self) -> Constant {
        Constant::Unknown
    }

    fn same(&self, x: Constant, y: Constant) -> bool {
        x == y
    }

    fn open(&self) -> Door {
        Door::Open
    }

    fn shut(&self) -> Door {
        Door::Shut
    }

    fn series(&self, g: Door, h: Door) -> Door {
        match g {
            Door::Open => h,
            Door::Shut => Door::Shut,
        }
    }

    fn either(&self, g: Door, h: Door) -> Door {
        match g {
            Door::Open => Door::Open,
            Door::Shut => h,
        }
    }

    fn same_gate(&self, g: Door, h: Door) -> bool {
        g == h
    }

    fn through(&self, g: Door, x: Constant) -> Constant {
        match g {
            Door::Open => x,
            Door::Shut => Constant::Unknown,
        }
    }

    fn effect(&self, _node: usize, statement: Statement) -> Effect<Door, Constant> {
        if !assigns(statement, self.variable) {
            return Effect {
                gate: Door::Open,
                forced: Constant::Unknown,
            };
        }
        match statement {
            Statement::Set(_, number) => Effect {
                gate: Door::Shut,
                forced: Constant::Number(number),
            },
            _ => Effect {
                gate: Door::Shut,
                forced: Constant::Unfixed,
            },
        }
    }
}
