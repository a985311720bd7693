// The refusals, in the order in which a call tests for them.
#[derive(Clone, Copy, PartialEq, Eq, Debug)]
pub enum Refusal {
    // no such region or node
    Missing,
    // a variable above 15 or a probe above 7
    Operand,
    // a fork of fewer than 2 or more than 8 branches
    Branches,
    // an arc between regions, or an end outside its region
    Outside,
    // an arc that is already there
    Repeated,
    // a new statement for a fork
    NotStep,
    // no room for another node, arc or row of regions
    Full,
    // the region has no ends
    NoEnds(usize),
    // no path leads from the first node of its region to the node
    Unreached(usize),
    // no path leads from the node to the last node of its region
    Stranded(usize),
    // the nodes up to this one compute more than 64 expressions
    TooManyExpressions(usize),
    // a buffer is too short
    Short,
    // bytes that are the text of no number
    NotTenths,
}
