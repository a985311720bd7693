// The value that a variable has before a node, if it is the same on every run.
ghost use Rattle.std.specs.Prelude.{◌≡◌, MatchResult};
ghost use Rattle.plan.specs.Stored.{seen};
ghost use Rattle.report.specs.Fixing.{FixedBefore, FixedRefused};

use crate::finding::find;
use facts::constant::Constant;
use facts::fixed::Fixed;
use plan::node::Direction;
use plan::statement::VARIABLES;
use plan::stored::{NODES, Plan};
use refusals::refusal::Refusal;

// The number that a variable holds before a node on every run, or `None` where no one number is fixed.
pub fn fixed(plan: &Plan, variable: u32, node: usize) -> Result<Option<i32>, Refusal>
    ensures { MatchResult result (λ found. FixedBefore (seen plan.now) variable node found) (λ e. FixedRefused (seen plan.now) variable node e) }
{
    if node >= plan.nodes().len() {
        return Err(Refusal::Missing);
    }
    if variable >= VARIABLES {
        return Err(Refusal::Operand);
    }
    let kind = Fixed { variable };
    let start = Constant::Unfixed;
    let mut values = [start; NODES];
    find(plan, &kind, Direction::Forward, start, &mut values)?;
    Ok(values[node].number())
}
