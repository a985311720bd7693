// Dead variables: bit v is 1 where variable v is not used again before it is assigned.
ghost use Rattle.plan.specs.Statements.{assigns as assigned_by, uses as used_by};
ghost use Rattle.facts.specs.Dead.{dead_effect};

use crate::masks::Masks;
use crate::setting::setting;
use bitset::bits::Bits;
use expressions::variables::{assigns, uses};
use kinds::effect::Effect;
use plan::statement::{Statement, VARIABLES};

#[derive(Clone, Copy)]
pub struct Dead {}

impl Masks for Dead {
    ghost masks = { λ k node s. dead_effect (used_by s) (assigned_by s) };

    fn mask(&self, _node: usize, statement: Statement) -> Effect<Bits, Bits> {
        setting(
            VARIABLES as usize,
            |v| uses(statement, v as u32),
            |v| assigns(statement, v as u32),
        )
    }
}
