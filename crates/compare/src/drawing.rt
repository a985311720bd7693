// Draws small plans, most of them whole.
use crate::dice::Dice;
use plan::stored::Plan;
use reference::unlisted::Unlisted;
use refusals::refusal::Refusal;
use std::alloc::Global;

// The largest plans that are drawn.
const NODES: usize = 10;

const REGIONS: usize = 8;

// How many nodes may still be made in a region, if each region behind it is to get one.
fn spare(plan: &Plan, region: usize) -> usize {
    let behind = plan
        .regions()
        .len()
        .saturating_sub(region)
        .saturating_sub(1);
    NODES
        .saturating_sub(plan.nodes().len())
        .saturating_sub(behind)
}

// Makes a fork, if there is room for its branches, or a step. Plan and dice go side by side through these functions: a struct of
// the two would be no shorter at the calls.
fn make_node(plan: &mut Plan, dice: &mut Dice, region: usize) -> Result<usize, Refusal> {
    let branches = if dice.one_in(4) { 3 } else { 2 };
    let regions = REGIONS.saturating_sub(plan.regions().len());
    if spare(plan, region) > branches && regions >= branches && dice.one_in(2) {
        plan.fork(region, branches)
    } else {
        plan.lay(region, dice.statement())
    }
}

// Joins some nodes with the next, and one in a while with another. An arc that is there already is refused.
fn join(plan: &mut Plan, dice: &mut Dice, first: usize, last: usize) {
    for n in first..last {
        if !dice.one_in(20) {
            let _ = plan.arc(n, n + 1);
        }
    }
}

// Joins a node with some of those between two.
fn join_more(plan: &mut Plan, dice: &mut Dice, node: usize, first: usize, last: usize) {
    for other in first..=last {
        if dice.one_in(5) {
            let _ = plan.arc(node, other);
        }
    }
}

// Makes up to three nodes in a region, or four in the outermost, joins them, and names its ends.
fn fill_region(plan: &mut Plan, dice: &mut Dice, region: usize) -> Result<(), Refusal> {
    let first = make_node(plan, dice, region)?;
    let mut last = first;
    for _more in 0..dice.below(3) + u64::from(region == 0) {
        if spare(plan, region) > 0 {
            last = make_node(plan, dice, region)?;
        }
    }
    join(plan, dice, first, last);
    let node = if dice.one_in(2) { first } else { last };
    join_more(plan, dice, node, first, last);
    plan.ends(region, first, last)
}

// Draws a plan: the branches of a fork come behind its own region, so each region is filled in its turn.
pub(crate) fn draw(heap: Global, dice: &mut Dice) -> Result<Plan, Unlisted> {
    let mut plan = Plan::new(heap)?;
    for region in 0..REGIONS {
        // the plan gets regions on the way
        if region < plan.regions().len() {
            fill_region(&mut plan, dice, region)?;
        }
    }
    let node = dice.below(10) as usize;
    let _ = plan.change(node, dice.statement());
    Ok(plan)
}
