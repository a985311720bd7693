// Sweeps of the plan in one direction for each kind, and sweeps that are refused.
use crate::swept;
use crate::swept::{draw_with, values};
use bitset::bits::Bits;
use facts::constant::Constant;
use facts::fixed::Fixed;
use kinds::effects::passing;
use pairs::pair::Pair;
use plan::node::Direction;
use plan::statement::Statement;
use plan::stored::Plan;
use refusals::refusal::Refusal;
use std::test::Fail;
use sweep::sweeping::sweep;

// Whether the plan's first expression is available before nodes 2, 3 and 4.
fn available(plan: &Plan) -> Result<[bool; 3], Fail> {
    let nodes = swept::available(plan, Direction::Forward)?;
    Ok([nodes[2], nodes[3], nodes[4]])
}

#[test]
fn a_reading_is_available_unless_the_other_branch_waits(rt: HostRuntime) -> Result<(), Fail> {
    let idle = draw_with(&rt, Statement::Idle, Statement::Probe(4, 3))?;
    assert!(rt; available(&idle)? == [true, false, true]);
    let wait = draw_with(&rt, Statement::Wait, Statement::Probe(4, 3))?;
    assert!(rt; available(&wait)? == [false, false, false]);
    Ok(())
}

// Whether variables 0 and 1 are dead behind nodes 3 and 4, where `start` tells what is dead at the end.
fn dead(plan: &Plan, start: Bits) -> Result<[bool; 2], Fail> {
    let first = swept::dead(plan, Direction::Backward, start, 0)?;
    let second = swept::dead(plan, Direction::Backward, start, 1)?;
    Ok([first[3], second[4]])
}

#[test]
fn what_is_kept_is_not_dead(rt: HostRuntime) -> Result<(), Fail> {
    let plan = draw_with(&rt, Statement::Idle, Statement::Send(2))?;
    assert!(rt; dead(&plan, Bits::every())? == [true, true]);
    assert!(rt; dead(&plan, Bits::every().without(0))? == [false, true]);
    let used = draw_with(&rt, Statement::Send(0), Statement::Send(1))?;
    assert!(rt; dead(&used, Bits::every())? == [false, false]);
    Ok(())
}

// The value of variable 2 before nodes 2 and 3.
fn fixed(plan: &Plan) -> Result<(Constant, Constant), Fail> {
    let nodes = swept::fixed(plan, Direction::Forward, Constant::Unfixed)?;
    Ok((nodes[2], nodes[3]))
}

#[test]
fn a_set_beside_unfixes_a_variable(rt: HostRuntime) -> Result<(), Fail> {
    let (before, within) = fixed(&draw_with(&rt, Statement::Idle, Statement::Send(2))?)?;
    assert_eq!(rt; before, Constant::Number(-4));
    assert_eq!(rt; within, Constant::Number(-4));
    let (before, within) = fixed(&draw_with(&rt, Statement::Set(2, 10), Statement::Send(2))?)?;
    assert_eq!(rt; before, Constant::Number(10));
    assert_eq!(rt; within, Constant::Unfixed);
    Ok(())
}

#[test]
fn a_pair_sweeps_two_kinds_at_once(rt: HostRuntime) -> Result<(), Fail> {
    let plan = draw_with(&rt, Statement::Set(5, 7), Statement::Send(2))?;
    let kind = Pair {
        left: Fixed { variable: 2 },
        right: Fixed { variable: 5 },
    };
    let unfixed = Pair {
        left: Constant::Unfixed,
        right: Constant::Unfixed,
    };
    let values = values(&plan, &kind, Direction::Forward, unfixed, unfixed)?;
    assert_eq!(rt; values[2].left, Constant::Number(-4));
    assert_eq!(rt; values[2].right, Constant::Number(7));
    assert_eq!(rt; values[4].right, Constant::Unfixed);
    Ok(())
}

#[test]
fn a_refused_sweep_writes_nothing(rt: HostRuntime) -> Result<(), Fail> {
    let kind = Fixed { variable: 2 };
    let mut values = [Constant::Number(1); 7];
    let mut effects = [passing(&kind); 7];
    let mut regions = [passing(&kind); 4];
    let new = Plan::new(rt.alloc())?;
    let answer = sweep(
        &new,
        &kind,
        Direction::Forward,
        Constant::Unfixed,
        &mut values,
        &mut effects,
        &mut regions,
    );
    assert_eq!(rt; answer, Err(Refusal::NoEnds(0)));
    let plan = draw_with(&rt, Statement::Idle, Statement::Send(2))?;
    let answer = sweep(
        &plan,
        &kind,
        Direction::Forward,
        Constant::Unfixed,
        &mut values[0..5],
        &mut effects,
        &mut regions,
    );
    assert_eq!(rt; answer, Err(Refusal::Short));
    let answer = sweep(
        &plan,
        &kind,
        Direction::Forward,
        Constant::Unfixed,
        &mut values,
        &mut effects,
        &mut regions[0..2],
    );
    assert_eq!(rt; answer, Err(Refusal::Short));
    assert_eq!(rt; values[0], Constant::Number(1));
    let answer = sweep(
        &plan,
        &kind,
        Direction::Forward,
        Constant::Unfixed,
        &mut values,
        &mut effects,
        &mut regions,
    );
    assert_eq!(rt; answer, Ok(()));
    assert_eq!(rt; values[5], Constant::Number(-4));
    assert_eq!(rt; values[6], Constant::Number(1));
    Ok(())
}
