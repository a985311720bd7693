// The plan of the examples swept in both directions, with what stands at every node.
use crate::swept::{available, dead, draw_with, fixed, values};
use bitset::bits::Bits;
use expressions::numbering::number;
use facts::available::Available;
use facts::bitwise::Bitwise;
use facts::constant::Constant;
use facts::dead::Dead;
use facts::fixed::Fixed;
use pairs::pair::Pair;
use plan::node::Direction;
use plan::statement::Statement;
use plan::stored::Plan;
use std::test::Fail;

// Forward, nodes 3 and 4 read the probe. A run reaches node 5 without them, and one reaches node 3 with no reading before.
// A wait at node 5 comes after them in some run to node 2, and after node 3 in some run to node 4.
// Backward, node 2 reads first, so that all is available but at node 2 itself. A wait at node 5 disturbs it in some run
// to nodes 4 and 3, and comes last in some run to node 0; none comes before nodes 1 and 5.
#[test]
fn a_reading_is_available_either_way(rt: HostRuntime) -> Result<(), Fail> {
    let idle = draw_with(&rt, Statement::Idle, Statement::Probe(4, 3))?;
    let wait = draw_with(&rt, Statement::Wait, Statement::Probe(4, 3))?;
    let forward = Direction::Forward;
    assert!(rt; available(&idle, forward)? == [false, false, true, false, true, false]);
    assert!(rt; available(&wait, forward)? == [false; 6]);
    let backward = Direction::Backward;
    assert!(rt; available(&idle, backward)? == [true, true, false, true, true, true]);
    assert!(rt; available(&wait, backward)? == [false, true, false, false, false, true]);
    Ok(())
}

// Backward with nothing kept, all is dead at the start. Variable 0 is assigned by node 3 alone, so if it is kept it is
// dead at node 0 alone. If node 5 uses it, it is not dead at nodes 4 and 3, which some run reaches behind node 5, nor at
// node 0, as node 5 may come last. Variable 1 is used by node 2, and assigned by node 4.
// Forward, node 5 uses variable 0 last in some runs to nodes 2, 3 and 4; no run to node 5 uses it.
#[test]
fn what_is_kept_is_not_dead_either_way(rt: HostRuntime) -> Result<(), Fail> {
    let backward = Direction::Backward;
    let plan = draw_with(&rt, Statement::Idle, Statement::Send(2))?;
    assert!(rt; dead(&plan, backward, Bits::every(), 0)? == [true; 6]);
    let kept = Bits::every().without(0);
    assert!(rt; dead(&plan, backward, kept, 0)? == [true, false, false, false, false, false]);
    let used = draw_with(&rt, Statement::Send(0), Statement::Send(1))?;
    let every = Bits::every();
    assert!(rt; dead(&used, backward, every, 0)? == [false, true, true, false, false, true]);
    assert!(rt; dead(&used, backward, every, 1)? == [true, false, true, true, false, false]);
    let forward = Direction::Forward;
    assert!(rt; dead(&used, forward, every, 0)? == [true, true, false, false, false, true]);
    Ok(())
}

// Node 0 sets variable 2 to -4, and node 5 may set it to 10.
// Forward, node 5 is in every run to node 2, and in some of those to nodes 3 and 4. Backward it is in every run to
// node 0, and in some of those to nodes 4 and 3; elsewhere the variable is as at the start, as node 0 is in no run.
#[test]
fn a_set_beside_unfixes_a_variable_either_way(rt: HostRuntime) -> Result<(), Fail> {
    let one = Constant::Number(1);
    let low = Constant::Number(-4);
    let high = Constant::Number(10);
    let unfixed = Constant::Unfixed;
    let idle = draw_with(&rt, Statement::Idle, Statement::Send(2))?;
    let set = draw_with(&rt, Statement::Set(2, 10), Statement::Send(2))?;
    let forward = Direction::Forward;
    assert!(rt; fixed(&idle, forward, one)? == [one, low, low, low, low, low]);
    assert!(rt; fixed(&set, forward, one)? == [one, low, high, unfixed, unfixed, low]);
    let backward = Direction::Backward;
    assert!(rt; fixed(&idle, backward, one)? == [one; 6]);
    assert!(rt; fixed(&set, backward, one)? == [high, one, one, unfixed, unfixed, one]);
    Ok(())
}

// The value of variable 2 at each node, and which variables are dead.
fn pair(plan: &Plan, direction: Direction) -> Result<[Pair<Constant, Bits>; 6], Fail> {
    let kind = Pair {
        left: Fixed { variable: 2 },
        right: Bitwise(Dead {}),
    };
    let start = Pair {
        left: Constant::Number(1),
        right: Bits::none(),
    };
    values(plan, &kind, direction, start, start)
}

// Node 5 sets variable 2 to 10, and node 2 sends it. Forward, node 0 sets it in every run to node 3, and node 5 in some
// behind that. Backward, every run to node 3 sends it, and in some node 5 sets it behind that; so it does in every run
// to node 0.
#[test]
fn a_pair_sweeps_two_kinds_either_way(rt: HostRuntime) -> Result<(), Fail> {
    let plan = draw_with(&rt, Statement::Set(2, 10), Statement::Send(2))?;
    let forward = pair(&plan, Direction::Forward)?;
    assert_eq!(rt; forward[0].left, Constant::Number(1));
    assert!(rt; !forward[0].right.bit(2));
    assert_eq!(rt; forward[3].left, Constant::Unfixed);
    assert!(rt; forward[3].right.bit(2));
    let backward = pair(&plan, Direction::Backward)?;
    assert_eq!(rt; backward[3].left, Constant::Unfixed);
    assert!(rt; !backward[3].right.bit(2));
    assert_eq!(rt; backward[0].left, Constant::Number(10));
    assert!(rt; backward[0].right.bit(2));
    Ok(())
}

type Values = Pair<Pair<Constant, Constant>, Pair<Bits, Bits>>;

// The values of variables 2 and 0 at each node, whether the probe's reading is available, and which variables are dead.
fn pairs(plan: &Plan, direction: Direction) -> Result<[Values; 6], Fail> {
    let kind = Pair {
        left: Pair {
            left: Fixed { variable: 2 },
            right: Fixed { variable: 0 },
        },
        right: Pair {
            left: Bitwise(Available {
                expressions: number(plan.nodes())?,
            }),
            right: Bitwise(Dead {}),
        },
    };
    let start = Pair {
        left: Pair {
            left: Constant::Number(1),
            right: Constant::Number(1),
        },
        right: Pair {
            left: Bits::none(),
            right: Bits::none(),
        },
    };
    values(plan, &kind, direction, start, start)
}

// Forward, every run to node 4 has node 0, which sets variable 2, and node 3, which reads the probe into variable 0; in
// some the wait at node 5 is behind them. Backward, every run to node 5 has node 2, which reads the probe; some have
// node 3 as well.
#[test]
fn pairs_nest(rt: HostRuntime) -> Result<(), Fail> {
    let plan = draw_with(&rt, Statement::Wait, Statement::Probe(4, 3))?;
    let forward = pairs(&plan, Direction::Forward)?;
    assert_eq!(rt; forward[4].left.left, Constant::Number(-4));
    assert_eq!(rt; forward[4].left.right, Constant::Unfixed);
    assert!(rt; !forward[4].right.left.bit(0));
    assert!(rt; forward[4].right.right.bit(0));
    let backward = pairs(&plan, Direction::Backward)?;
    assert_eq!(rt; backward[5].left.left, Constant::Number(1));
    assert_eq!(rt; backward[5].left.right, Constant::Unfixed);
    assert!(rt; backward[5].right.left.bit(0));
    assert!(rt; !backward[5].right.right.bit(0));
    Ok(())
}
