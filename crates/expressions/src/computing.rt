// What steps compute, and what they disturb.
ghost use Rattle.std.specs.Prelude.{◌≡◌, Decides};
ghost use Rattle.expressions.specs.Expressions.{computed, computed_by, disturbed, makes, same};

use crate::expression::Expression;
use crate::variables::assigns;
use plan::node::Node;
use plan::statement::Statement;

impl Expression {
    // Whether two expressions are one. The derived `==` does it; its contract ties that to the test that the rules are told by,
    // which the derive has no place for.
    pub fn is(self, other: Expression) -> bool
        ensures test { result ≡ same self other }
        ensures equal { Decides result (self ≡ other) }
    {
        self == other
    }
}

// The expression that a step computes.
pub fn computes(statement: Statement) -> Option<Expression>
    ensures { result ≡ computed statement }
{
    match statement {
        Statement::Probe(_, p) => Some(Expression::Probe(p)),
        Statement::Add(_, a, b) => Some(Expression::Add(a, b)),
        Statement::Sub(_, a, b) => Some(Expression::Sub(a, b)),
        Statement::Min(_, a, b) => Some(Expression::Min(a, b)),
        Statement::Max(_, a, b) => Some(Expression::Max(a, b)),
        _ => None,
    }
}

// Whether a step computes an expression.
pub fn makes(statement: Statement, expression: Expression) -> bool
    ensures { result ≡ makes statement expression }
{
    computes(statement).is_some_and(|made| made.is(expression))
}

// The expression that a node computes; a fork computes none.
pub fn node_computes(node: Node) -> Option<Expression>
    ensures { result ≡ computed_by node }
{
    match node {
        Node::Step(_, statement) => computes(statement),
        Node::Fork(_, _, _) => None,
    }
}

// Whether an expression may have another value after a step than before it.
pub fn disturbs(statement: Statement, expression: Expression) -> bool
    ensures { result ≡ disturbed statement expression }
{
    match expression {
        Expression::Probe(_) => matches!(statement, Statement::Wait),
        Expression::Add(a, b)
        | Expression::Sub(a, b)
        | Expression::Min(a, b)
        | Expression::Max(a, b) => { assigns(statement, a) || assigns(statement, b) }
    }
}
