// Compares the lists of steps and the fixed values with what the values of the reference say.
use crate::comparing::Case;
use crate::tally::{Comparisons, Tally};
use bitset::bits::Bits;
use expressions::computing::makes;
use expressions::table::Expressions;
use facts::available::Available;
use facts::bitwise::Bitwise;
use facts::constant::Constant;
use facts::dead::Dead;
use facts::fixed::Fixed;
use plan::node::{Direction, Node};
use plan::statement::Statement;
use plan::stored::{NODES, Plan};
use reference::unlisted::Unlisted;
use refusals::refusal::Refusal;
use report::fixing::fixed;
use report::listing::{dead, redundant};

// Whether a step computes an expression whose bit is set.
fn is_redundant(expressions: &Expressions, statement: Statement, value: Bits) -> bool {
    let mut numbered = expressions.as_slice().iter().enumerate();
    numbered.any(|(number, expression)| makes(statement, *expression) && value.bit(number))
}

// The variable that a step assigns. It is told by a match of its own: the list of dead steps goes by the library's `target`.
fn assigned(statement: Statement) -> Option<u32> {
    match statement {
        Statement::Idle | Statement::Wait | Statement::Send(_) => None,
        Statement::Set(v, _)
        | Statement::Copy(v, _)
        | Statement::Probe(v, _)
        | Statement::Add(v, _, _)
        | Statement::Sub(v, _, _)
        | Statement::Min(v, _, _)
        | Statement::Max(v, _, _) => Some(v),
    }
}

// Whether a step assigns a variable whose bit is set. Here, as above, it is not
// told by the test of the report, which is what is compared.
fn is_dead(statement: Statement, value: Bits) -> bool {
    assigned(statement).is_some_and(|variable| value.bit(variable as usize))
}

// The number that is known, if one is. By a match of its own, too: the answers of `fixed` go by the library's `number`.
fn known(value: Constant) -> Option<i32> {
    match value {
        Constant::Number(number) => Some(number),
        Constant::Unknown | Constant::Unfixed => None,
    }
}

// Compares the bytes of a list with what the values say of each node: a step is listed where `holds` says so of it and of
// the value before it in the direction of the fact, and a fork never is.
fn compare_list<F: Fn(Statement, Bits) -> bool>(
    nodes: &[Node],
    values: &[Bits],
    list: &[u8],
    count: &mut Comparisons,
    holds: F,
)
    requires { F.IsAlwaysCallable holds }
{
    for ((node, value), byte) in nodes.iter().zip(values).zip(list) {
        let expected = match *node {
            Node::Step(_, statement) => holds(statement, *value),
            Node::Fork(_, _, _) => false,
        };
        count.note(u8::from(expected) == *byte, expected);
    }
}

// Compares the answer before every node with what the values say.
fn note_fixed(
    plan: &Plan,
    variable: u32,
    values: &[Constant],
    count: &mut Comparisons,
) -> Result<(), Refusal> {
    for (node, value) in values.iter().enumerate() {
        let expected = known(*value);
        count.note(fixed(plan, variable, node)? == expected, expected.is_some());
    }
    Ok(())
}

impl Case<'_> {
    // Compares available expressions forward, and the list of redundant steps.
    pub(crate) fn compare_redundant(
        &self,
        kind: &Bitwise<Available>,
        tally: &mut Tally,
    ) -> Result<(), Unlisted> {
        let start = Bits::none();
        let values = self.compare_values(kind, Direction::Forward, start, &mut tally.values)?;
        let mut list = [0; NODES];
        redundant(self.plan, &mut list)?;
        let nodes = self.plan.nodes();
        let expressions = &kind.0.expressions;
        compare_list(nodes, &values, &list, &mut tally.redundant, |step, value| {
            is_redundant(expressions, step, value)
        });
        Ok(())
    }

    // Compares dead variables backward, and the list of dead steps.
    pub(crate) fn compare_dead(&self, tally: &mut Tally) -> Result<(), Unlisted> {
        let kind = Bitwise(Dead {});
        let start = Bits::except(self.conditions.kept);
        let values = self.compare_values(&kind, Direction::Backward, start, &mut tally.values)?;
        let mut list = [0; NODES];
        dead(self.plan, self.conditions, &mut list)?;
        let nodes = self.plan.nodes();
        compare_list(nodes, &values, &list, &mut tally.dead, is_dead);
        Ok(())
    }

    // Compares the value of a variable forward, and the answer before every node.
    pub(crate) fn compare_fixed(&self, variable: u32, tally: &mut Tally) -> Result<(), Unlisted> {
        let kind = Fixed { variable };
        let start = Constant::Unfixed;
        let values = self.compare_values(&kind, Direction::Forward, start, &mut tally.values)?;
        note_fixed(self.plan, variable, &values, &mut tally.fixed)?;
        Ok(())
    }
}
