// Rows of calls.
ghost use Rattle.std.specs.Prelude.{◌≡◌, ◌++◌, IfOk};
ghost use Rattle.plan.specs.Drawn.{blank};
ghost use Rattle.plan.specs.Stored.{seen};
ghost use Rattle.plan.specs.Calls.{after, after_all, answer, answers_of, drawn};

use crate::call::Call;
use crate::node::{Arc, Ends, Node};
use crate::stored::Plan;
use refusals::refusal::Refusal;
use std::alloc::{AllocError, Global};

impl Plan {
    // The nodes, by their numbers.
    pub fn nodes(&self) -> &[Node]
        ensures { result.now ≡ (seen self.now).nodes }
    {
        self.nodes.as_slice()
    }

    // The arcs, in the order of making.
    pub fn arcs(&self) -> &[Arc]
        ensures { result.now ≡ (seen self.now).arcs }
    {
        self.arcs.as_slice()
    }

    // The ends of each region, if they are named.
    pub fn regions(&self) -> &[Option<Ends>]
        ensures { result.now ≡ (seen self.now).ends }
    {
        self.ends.as_slice()
    }

    // Performs a call, and answers the number of the node that it made, if it made one. A call is a value,
    // since the contracts speak of rows of calls, and so what to do is told by a match.
    pub fn perform(&mut self, call: Call) -> Result<Option<usize>, Refusal>
        ensures answer { result ≡ answer (seen self.old) call }
        ensures plan { seen self.new ≡ after (seen self.old) call }
    {
        match call {
            Call::Lay(region, statement) => Ok(Some(self.lay(region, statement)?)),
            Call::Fork(region, branches) => Ok(Some(self.fork(region, branches)?)),
            Call::Arc(from, to) => {
                self.arc(from, to)?;
                Ok(None)
            }
            Call::Ends(region, first, last) => {
                self.ends(region, first, last)?;
                Ok(None)
            }
            Call::Change(node, statement) => {
                self.change(node, statement)?;
                Ok(None)
            }
        }
    }
}

// A plan that a row of calls made, with what each of them answered.
#[derive(Drop)]
pub struct Drawing {
    pub plan: Plan,
    pub answers: Vec<Result<Option<usize>, Refusal>>,
}

// Performs the calls one after another, and adds what each answers.
fn perform_all(
    plan: &mut Plan,
    calls: &[Call],
    answers: &mut Vec<Result<Option<usize>, Refusal>>,
) -> Result<(), AllocError>
    ensures { IfOk result (λ _.
        (seen plan.new ≡ after_all (seen plan.old) calls.now)
        × (answers.new.items ≡ answers.old.items ++ answers_of (seen plan.old) calls.now)) }
{
    for call in calls {
        answers.push(plan.perform(*call))?;
    }
    Ok(())
}

// Performs a row of calls on a new plan. Each goes on from the plan as it is, refused or not.
pub fn draw(heap: Global, calls: &[Call]) -> Result<Drawing, AllocError>
    ensures plan { IfOk result (λ d. seen d.plan ≡ drawn calls.now) }
    ensures answers { IfOk result (λ d. d.answers.items ≡ answers_of blank calls.now) }
{
    let mut plan = Plan::new(heap)?;
    let mut answers = Vec::new(heap);
    perform_all(&mut plan, calls, &mut answers)?;
    Ok(Drawing { plan, answers })
}
