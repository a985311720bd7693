// The expressions of a plan, numbered by the lowest nodes that compute them.
ghost use Rattle.std.specs.Prelude.{◌≡◌, ◌<◌, ◌≤◌, [], length, MatchResult};
ghost use Rattle.refusals.specs.declared.refusal.Refusal.TheVariants.{TooManyExpressions};
ghost use Rattle.expressions.specs.Expressions.{listed, place, also, Holding, Crowded};

use crate::computing::node_computes;
use crate::expression::Expression;
use crate::table::{Expressions, PLACES};
use plan::node::Node;
use refusals::refusal::Refusal;

impl Expressions {
    // A table that holds nothing.
    pub fn new() -> Expressions
        ensures { listed result ≡ [] }
    {
        Expressions {
            items: [Expression::Probe(0); PLACES],
            count: 0,
        }
    }

    // Its expressions, each at the place of its number.
    pub fn as_slice(&self) -> &[Expression]
        ensures { result.now ≡ listed self.now }
    {
        &self.items[..self.count]
    }

    // The number of an expression.
    pub fn position(&self, expression: Expression) -> Option<usize>
        ensures { result ≡ place expression (listed self.now) }
    {
        self.as_slice().iter().position(|item| item.is(expression))
    }

    // Gives an expression that a node computes the next number, unless it has one; refused where there is no room.
    #[tactic(auto, using(crate::proofs::Numbered::new_too_many, crate::proofs::Places::some_place))]
    fn add(&mut self, expression: Expression, node: usize) -> Result<(), Refusal>
        ensures { MatchResult result
            (λ _. (length (also expression (listed self.old)) ≤ 64) × (listed self.new ≡ also expression (listed self.old)))
            (λ e. (64 < length (also expression (listed self.old))) × (e ≡ TooManyExpressions node) × (listed self.new ≡ listed self.old)) }
    {
        if self.position(expression).is_some() {
            return Ok(());
        }
        if self.count >= PLACES {
            return Err(Refusal::TooManyExpressions(node));
        }
        self.items[self.count] = expression;
        self.count += 1;
        Ok(())
    }
}

// The expressions that nodes compute, or the node up to which there are too many.
pub fn number(nodes: &[Node]) -> Result<Expressions, Refusal>
    ensures { MatchResult result (λ t. Holding nodes.now t) (λ e. Crowded nodes.now e) }
{
    let mut table = Expressions::new();
    for (lowest, node) in nodes.iter().enumerate() {
        if let Some(expression) = node_computes(*node) {
            table.add(expression, lowest)?;
        }
    }
    Ok(table)
}
