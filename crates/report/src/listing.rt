// The steps that may be struck.
ghost use Rattle.std.specs.Prelude.{◌≡◌, ◌≤◌, Bool, length, MatchResult};
ghost use Rattle.plan.specs.declared.node.Node.{Node};
ghost use Rattle.plan.specs.Stored.{seen};
ghost use Rattle.bitset.specs.declared.bits.Bits.{Bits};
ghost use Rattle.expressions.specs.Expressions.{listed, computed_by};
ghost use Rattle.report.specs.Listing.{Filled, TestedBy, marks, bit_of, ListsRedundant, Refused};
ghost use Rattle.report.specs.Strikes.{StrikeLaw};
ghost use Rattle.report.specs.Unread.{bit_among, assigned_by, ListsDead, DeadRefused};

use crate::finding::find;
use bitset::bits::Bits;
use expressions::computing::node_computes;
use expressions::numbering::number;
use expressions::table::Expressions;
use expressions::variables::target;
use facts::available::Available;
use facts::bitwise::Bitwise;
use facts::dead::Dead;
use plan::conditions::Conditions;
use plan::node::{Direction, Node};
use plan::stored::{NODES, Plan};
use refusals::refusal::Refusal;

// Writes for each node whether it passes a test together with its value. The bytes 1 and 0 are what a list is asked for in,
// and the loop goes over the nodes and the bytes with their index, as a list is told.
fn mark<F: Fn(Node, Bits) -> bool>(nodes: &[Node], values: &[Bits], test: F, out: &mut [u8])
    requires along { (length nodes.now ≤ length values.now) × (length nodes.now ≤ length out.old) }
    requires test { F.IsAlwaysCallable test }
    ensures { (f : Node → Bits → Bool) → TestedBy (F.post test) nodes.now values.now f → Filled 0 (marks f nodes.now values.now) (length nodes.now) out.old out.new }
{
    for (n, node) in nodes.iter().enumerate() {
        out[n] = u8::from(test(*node, values[n]));
    }
}

// Whether a node's expression is available where `value` is.
fn is_available(expressions: &Expressions, node: Node, value: Bits) -> bool
    ensures { result ≡ bit_of (listed expressions.now) value (computed_by node) }
{
    node_computes(node)
        .and_then(|expression| expressions.position(expression))
        .is_some_and(|place| value.bit(place))
}

// Writes a byte for each node: 1 where the step computes an expression that is available before it on every run, else 0.
pub fn redundant(plan: &Plan, out: &mut [u8]) -> Result<(), Refusal>
    ensures law { StrikeLaw }
    ensures list { MatchResult result
        (λ _. ListsRedundant (seen plan.now) out.old out.new)
        (λ e. Refused (seen plan.now) (length (seen plan.now).nodes) (length out.old) e × (out.new ≡ out.old)) }
{
    plan.whole()?;
    let expressions = number(plan.nodes())?;
    if out.len() < plan.nodes().len() {
        return Err(Refusal::Short);
    }
    let kind = Bitwise(Available { expressions });
    let start = Bits::none();
    let mut values = [start; NODES];
    find(plan, &kind, Direction::Forward, start, &mut values)?;
    let test = |node, value| is_available(&expressions, node, value);
    mark(plan.nodes(), &values, test, out);
    Ok(())
}

// Whether a node assigns a variable that is dead where `value` is.
fn is_dead(node: Node, value: Bits) -> bool
    ensures { result ≡ bit_among value (assigned_by node) }
{
    let Node::Step(_, statement) = node else {
        return false;
    };
    target(statement).is_some_and(|variable| value.bit(variable as usize))
}

// Writes a byte for each node: 1 where the step assigns a variable that is dead behind it on every run, else 0.
pub fn dead(plan: &Plan, conditions: Conditions, out: &mut [u8]) -> Result<(), Refusal>
    ensures { MatchResult result
        (λ _. ListsDead (seen plan.now) conditions.kept out.old out.new)
        (λ e. DeadRefused (seen plan.now) (length out.old) e × (out.new ≡ out.old)) }
{
    plan.whole()?;
    if out.len() < plan.nodes().len() {
        return Err(Refusal::Short);
    }
    let start = Bits::except(conditions.kept);
    let mut values = [start; NODES];
    find(
        plan,
        &Bitwise(Dead {}),
        Direction::Backward,
        start,
        &mut values,
    )?;
    mark(plan.nodes(), &values, is_dead, out);
    Ok(())
}
