// What the plans look like that were compared.
use crate::counter::Counter;
use expressions::variables::target;
use plan::node::Node;
use plan::statement::Statement;
use plan::stored::Plan;
use std::fmt;
use std::ops::Range;

// How many plans show each shape.
#[derive(Clone, Copy, Default)]
pub(crate) struct Shapes {
    plans: Counter,
    // with a fork
    forked: Counter,
    // with a fork in a branch
    nested: Counter,
    // with a fork in a branch, and a step that may change facts in another branch of the same fork
    beside: Counter,
    // with an arc back
    looped: Counter,
}

// The branches of a fork: regions that follow one another. The reference has its like, and shares nothing with what it is
// compared with.
#[derive(Clone, Copy)]
struct Branches {
    first: usize,
    count: usize,
}

impl Branches {
    fn regions(self) -> Range<usize> {
        self.first..self.first.saturating_add(self.count)
    }
}

// Whether a step waits or assigns.
fn changes(statement: Statement) -> bool {
    matches!(statement, Statement::Wait) || target(statement).is_some()
}

// Whether a region holds a fork.
fn holds_fork(nodes: &[Node], region: usize) -> bool {
    nodes.iter().any(|node| matches!(*node, Node::Fork(around, _, _) if around == region))
}

// Whether a region holds a step that waits or assigns.
fn holds_change(nodes: &[Node], region: usize) -> bool {
    nodes.iter().any(|node| match *node {
        Node::Step(around, statement) => around == region && changes(statement),
        Node::Fork(_, _, _) => false,
    })
}

// Whether a branch of a fork, other than a given one, holds a step that waits or assigns.
fn changes_beside(nodes: &[Node], branches: Branches, given: usize) -> bool {
    branches
        .regions()
        .any(|branch| branch != given && holds_change(nodes, branch))
}

// Whether a branch of a fork holds a fork itself, beside a branch with a step that waits or assigns.
fn nests_beside(nodes: &[Node], branches: Branches) -> bool {
    let mut regions = branches.regions();
    regions.any(|branch| holds_fork(nodes, branch) && changes_beside(nodes, branches, branch))
}

// Whether some fork has a branch that holds a fork, beside one with a step that waits or assigns.
fn is_beside(nodes: &[Node]) -> bool {
    nodes.iter().any(|node| match *node {
        Node::Step(_, _) => false,
        Node::Fork(_, first, count) => nests_beside(nodes, Branches { first, count }),
    })
}

// Whether a fork lies in a branch.
fn is_nested(nodes: &[Node]) -> bool {
    nodes.iter().any(|node| matches!(*node, Node::Fork(region, _, _) if region > 0))
}

// Whether an arc leads back.
fn is_looped(plan: &Plan) -> bool {
    plan.arcs().iter().any(|arc| arc.to <= arc.from)
}

impl Shapes {
    // Counts a plan.
    pub(crate) fn note(&mut self, plan: &Plan) {
        let nodes = plan.nodes();
        self.plans.add_one();
        self.forked.add_if(plan.regions().len() > 1);
        self.nested.add_if(is_nested(nodes));
        self.beside.add_if(is_beside(nodes));
        self.looped.add_if(is_looped(plan));
    }
}

impl fmt::Display for Shapes {
    fn fmt<W: fmt::Write>(&self, f: &mut fmt::Formatter<W>) -> fmt::Result {
        write!(
            f,
            "{} compared, {} forked, {} nested, {} nested beside a wait or an assignment, {} looped",
            self.plans, self.forked, self.nested, self.beside, self.looped
        )
    }
}
