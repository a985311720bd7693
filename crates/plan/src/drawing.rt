// The calls that draw a plan. Each tests for its refusals in the order of their numbers.
ghost use Rattle.std.specs.Prelude.{◌≡◌, ℕ, ◌+◌, ◌≤◌, [], ◌∷◌, ◌++◌, length, replicate, IfOk, None, vec_len, vec_capacity};
ghost use Rattle.plan.specs.Drawn.{blank, region_of};
ghost use Rattle.plan.specs.Stored.{seen};
ghost use Rattle.plan.specs.Statements.{in_range};
ghost use Rattle.plan.specs.Calls.{refusal, after, unless, has_arc};

use crate::call::Call;
use crate::node::{Arc, Ends, Node};
use crate::statement::{PROBES, Statement, VARIABLES};
use crate::stored::{ARCS, NODES, Plan, REGIONS};
use refusals::refusal::Refusal;
use std::alloc::{AllocError, Global};

impl Statement {
    // Whether its variables are among the 16, and its probe among the 8.
    pub(crate) fn in_range(self) -> bool
        ensures { result ≡ in_range self }
    {
        match self {
            Statement::Idle | Statement::Wait => true,
            Statement::Set(v, _) | Statement::Send(v) => v < VARIABLES,
            Statement::Copy(v, a) => v < VARIABLES && a < VARIABLES,
            Statement::Probe(v, p) => v < VARIABLES && p < PROBES,
            Statement::Add(v, a, b)
            | Statement::Sub(v, a, b)
            | Statement::Min(v, a, b)
            | Statement::Max(v, a, b) => { v < VARIABLES && a < VARIABLES && b < VARIABLES }
        }
    }
}

impl Node {
    // The region in which it lies.
    pub fn region(self) -> usize
        ensures { result ≡ region_of self }
    {
        match self {
            Node::Step(region, _) | Node::Fork(region, _, _) => region,
        }
    }
}

// Adds so many regions with no ends, one by one: the library's `resize` may be refused memory, and here the room is there.
fn add_regions(regions: &mut Vec<Option<Ends>>, count: usize)
    requires { vec_len regions.old + count ≤ vec_capacity regions.old }
    ensures items { regions.new.items ≡ regions.old.items ++ replicate count None }
    ensures len { vec_len regions.new ≡ vec_len regions.old + count }
    ensures capacity { vec_capacity regions.new ≡ vec_capacity regions.old }
{
    for _done in 0..count {
        regions.push_reserved(None);
    }
}

// Whether an arc is there already.
fn has_arc(arcs: &[Arc], from: usize, to: usize) -> bool
    ensures { result ≡ has_arc from to arcs.now }
{
    arcs.iter().any(|arc| arc.from == from && arc.to == to)
}

// The plan with region 0 and nothing else, where there is room for all that a plan may hold.
fn empty_plan(nodes: Vec<Node>, arcs: Vec<Arc>, ends: Vec<Option<Ends>>) -> Plan
    requires lists { (nodes.items ≡ []) × (arcs.items ≡ []) × (ends.items ≡ None ∷ []) }
    requires room { (256 ≤ vec_capacity nodes) × (1024 ≤ vec_capacity arcs) × (64 ≤ vec_capacity ends) }
    ensures { seen result ≡ blank }
{
    Plan { nodes, arcs, ends }
}

impl Plan {
    // A new plan: region 0 and nothing else.
    pub fn new(heap: Global) -> Result<Plan, AllocError>
        ensures { IfOk result (λ p. seen p ≡ blank) }
    {
        let nodes = Vec::with_capacity(heap, NODES)?;
        let arcs = Vec::with_capacity(heap, ARCS)?;
        let mut ends = Vec::with_capacity(heap, REGIONS)?;
        ends.push_reserved(None);
        Ok(empty_plan(nodes, arcs, ends))
    }

    // Makes a step in a region, and answers its number.
    pub fn lay(&mut self, region: usize, statement: Statement) -> Result<usize, Refusal>
        ensures answer { result ≡ unless (refusal (seen self.old) (Call.Lay region statement)) (length (seen self.old).nodes) }
        ensures plan { seen self.new ≡ after (seen self.old) (Call.Lay region statement) }
    {
        if region >= self.ends.len() {
            return Err(Refusal::Missing);
        }
        if !statement.in_range() {
            return Err(Refusal::Operand);
        }
        let node = self.nodes.len();
        if node >= NODES {
            return Err(Refusal::Full);
        }
        self.nodes.push_reserved(Node::Step(region, statement));
        Ok(node)
    }

    // Makes a fork in a region, with the next regions as its branches, and answers its number.
    pub fn fork(&mut self, region: usize, branches: usize) -> Result<usize, Refusal>
        ensures answer { result ≡ unless (refusal (seen self.old) (Call.Fork region branches)) (length (seen self.old).nodes) }
        ensures plan { seen self.new ≡ after (seen self.old) (Call.Fork region branches) }
    {
        let first = self.ends.len();
        if region >= first {
            return Err(Refusal::Missing);
        }
        if branches < 2 || branches > 8 {
            return Err(Refusal::Branches);
        }
        let node = self.nodes.len();
        if node >= NODES || first + branches > REGIONS {
            return Err(Refusal::Full);
        }
        add_regions(&mut self.ends, branches);
        self.nodes
            .push_reserved(Node::Fork(region, first, branches));
        Ok(node)
    }

    // Joins two nodes of one region.
    pub fn arc(&mut self, from: usize, to: usize) -> Result<(), Refusal>
        ensures answer { result ≡ unless (refusal (seen self.old) (Call.Arc from to)) tt }
        ensures plan { seen self.new ≡ after (seen self.old) (Call.Arc from to) }
    {
        let count = self.nodes.len();
        if from >= count || to >= count {
            return Err(Refusal::Missing);
        }
        if self.nodes[from].region() != self.nodes[to].region() {
            return Err(Refusal::Outside);
        }
        if has_arc(&self.arcs, from, to) {
            return Err(Refusal::Repeated);
        }
        if self.arcs.len() >= ARCS {
            return Err(Refusal::Full);
        }
        self.arcs.push_reserved(Arc { from, to });
        Ok(())
    }

    // Names the first and the last node of a region, in place of those named before.
    pub fn ends(&mut self, region: usize, first: usize, last: usize) -> Result<(), Refusal>
        ensures answer { result ≡ unless (refusal (seen self.old) (Call.Ends region first last)) tt }
        ensures plan { seen self.new ≡ after (seen self.old) (Call.Ends region first last) }
    {
        let count = self.nodes.len();
        if region >= self.ends.len() || first >= count || last >= count {
            return Err(Refusal::Missing);
        }
        if self.nodes[first].region() != region || self.nodes[last].region() != region {
            return Err(Refusal::Outside);
        }
        self.ends[region] = Some(Ends { first, last });
        Ok(())
    }

    // Gives a step another statement.
    pub fn change(&mut self, node: usize, statement: Statement) -> Result<(), Refusal>
        ensures answer { result ≡ unless (refusal (seen self.old) (Call.Change node statement)) tt }
        ensures plan { seen self.new ≡ after (seen self.old) (Call.Change node statement) }
    {
        if node >= self.nodes.len() {
            return Err(Refusal::Missing);
        }
        if !statement.in_range() {
            return Err(Refusal::Operand);
        }
        match self.nodes[node] {
            Node::Step(region, _) => {
                self.nodes[node] = Node::Step(region, statement);
                Ok(())
            }
            Node::Fork(_, _, _) => Err(Refusal::NotStep),
        }
    }
}
