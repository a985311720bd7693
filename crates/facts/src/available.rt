// Available expressions: bit i is 1 where expression i of a table was computed, and not disturbed since.
ghost use Rattle.facts.specs.Available.{available_effect};
ghost use Rattle.expressions.specs.Expressions.{listed};

use crate::masks::Masks;
use crate::setting::setting;
use bitset::bits::Bits;
use expressions::computing::{disturbs, makes};
use expressions::table::Expressions;
use kinds::effect::Effect;
use plan::statement::Statement;

#[derive(Clone, Copy)]
pub struct Available {
    pub expressions: Expressions,
}

impl Masks for Available {
    ghost masks = { λ k node s. available_effect (listed k.expressions) s };

    fn mask(&self, _node: usize, statement: Statement) -> Effect<Bits, Bits> {
        let expressions = self.expressions.as_slice();
        setting(
            expressions.len(),
            |i| disturbs(statement, expressions[i]),
            |i| makes(statement, expressions[i]),
        )
    }
}
