// The numbers that the steps of a plan send, found for four variables at a time.
ghost use Rattle.std.specs.Prelude.{◌≡◌, ℕ, ◌+◌, ◌<◌, ◌≤◌, length, None, MatchResult, slice_index_or};
ghost use Rattle.plan.specs.declared.node.Node.TheVariants.{Step};
ghost use Rattle.plan.specs.declared.statement.Statement.TheVariants.{Idle};
ghost use Rattle.plan.specs.Paths.{Fault};
ghost use Rattle.plan.specs.Stored.{seen};
ghost use Rattle.facts.specs.Numbers.{Fits32};
ghost use Rattle.report.specs.Listing.{Filled};
ghost use Rattle.report.specs.Sending.{sent_by, four_from, unknown_four, in_order, sent_of, SentBelow};

use crate::finding::find;
use facts::constant::Constant;
use facts::fixed::Fixed;
use facts::four::{TwoConstants, TwoFixed};
use pairs::pair::Pair;
use plan::node::{Direction, Node};
use plan::statement::{Statement, VARIABLES};
use plan::stored::{NODES, Plan};
use refusals::refusal::Refusal;

type FourConstants = Pair<TwoConstants, TwoConstants>;

// The variable that a node sends.
fn variable_sent(node: Node) -> Option<u32>
    ensures { result ≡ sent_by node }
{
    match node {
        Node::Step(_, Statement::Send(variable)) => Some(variable),
        _ => None,
    }
}

// Four variables that follow one another, by the first of them.
#[derive(Clone, Copy)]
struct Quartet {
    first: u32,
    ghost within: { first ≤ 12 },
}

impl Quartet {
    // The kinds for the values of the four, as a pair of pairs.
    fn kind(self) -> Pair<TwoFixed, TwoFixed>
        ensures { result ≡ four_from self.first }
    {
        let first = self.first;
        let left = Pair {
            left: Fixed { variable: first },
            right: Fixed {
                variable: first + 1,
            },
        };
        let right = Pair {
            left: Fixed {
                variable: first + 2,
            },
            right: Fixed {
                variable: first + 3,
            },
        };
        Pair { left, right }
    }
}

// The four values in the order of their variables.
fn in_order(values: FourConstants) -> [Constant; 4]
    ensures { result ≡ in_order values }
{
    [
        values.left.left,
        values.left.right,
        values.right.left,
        values.right.right,
    ]
}

// What is noted of a node: the value of the variable that it sends, if that is one of the four.
fn note(node: Node, four: Quartet, values: FourConstants, before: Option<i32>) -> Option<i32>
    ensures value { result ≡ sent_of node four.first values before }
    ensures fits { Fits32 result }
{
    match variable_sent(node) {
        Some(variable) if (four.first..four.first + 4).contains(&variable) => {
            in_order(values)[(variable - four.first) as usize].number()
        }
        _ => before,
    }
}

// Notes of each node the value of the variable that it sends, if that is one of the four. The loop goes over the nodes with
// their index, as a report is told.
fn note_all(nodes: &[Node], four: Quartet, values: &[FourConstants], sent: &mut [Option<i32>])
    requires along { (length nodes.now ≤ length values.now) × (length nodes.now ≤ length sent.old) }
    requires fits { (n : ℕ) → Fits32 (slice_index_or sent.old n None) }
    ensures filled { Filled None (λ n. sent_of (slice_index_or nodes.now n (Step 0 Idle)) four.first (slice_index_or values.now n unknown_four) (slice_index_or sent.old n None))
        (length nodes.now) sent.old sent.new }
    ensures fits { (n : ℕ) → Fits32 (slice_index_or sent.new n None) }
{
    for (n, node) in nodes.iter().enumerate() {
        sent[n] = note(*node, four, values[n], sent[n]);
    }
}

// Finds the numbers that are sent of four variables, by one sweep. In a frame of its own: what it sweeps into takes no room on
// the stack while a report does anything else.
#[inline(never)]
fn find_four(plan: &Plan, four: Quartet, sent: &mut [Option<i32>; NODES]) -> Result<(), Refusal>
    requires { SentBelow (seen plan.now) four.first sent.old }
    ensures { MatchResult result (λ _. SentBelow (seen plan.now) (four.first + 4) sent.new) (λ e. Fault (seen plan.now) e) }
{
    let two = Pair {
        left: Constant::Unfixed,
        right: Constant::Unfixed,
    };
    let unfixed = Pair {
        left: two,
        right: two,
    };
    let mut values = [unfixed; NODES];
    find(plan, &four.kind(), Direction::Forward, unfixed, &mut values)?;
    note_all(plan.nodes(), four, &values, sent);
    Ok(())
}

// Finds the numbers that are sent of all 16 variables.
pub(crate) fn find_sent(plan: &Plan, sent: &mut [Option<i32>; NODES]) -> Result<(), Refusal>
    requires { SentBelow (seen plan.now) 0 sent.old }
    ensures { MatchResult result (λ _. SentBelow (seen plan.now) 16 sent.new) (λ e. Fault (seen plan.now) e) }
{
    for first in (0..VARIABLES).step_by(4) {
        find_four(plan, Quartet { first }, sent)?;
    }
    Ok(())
}
