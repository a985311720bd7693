// When a plan is whole, and the number and place of what it lacks.
use plan::statement::Statement;
use plan::stored::Plan;
use refusals::refusal::Refusal;
use std::test::Fail;

#[test]
fn a_new_plan_has_no_ends(rt: HostRuntime) -> Result<(), Fail> {
    let plan = Plan::new(rt.alloc())?;
    assert_eq!(rt; plan.whole(), Err(Refusal::NoEnds(0)));
    Ok(())
}

#[test]
fn one_node_is_whole(rt: HostRuntime) -> Result<(), Fail> {
    let mut plan = Plan::new(rt.alloc())?;
    assert_eq!(rt; plan.lay(0, Statement::Idle), Ok(0));
    assert_eq!(rt; plan.ends(0, 0, 0), Ok(()));
    assert_eq!(rt; plan.whole(), Ok(()));
    Ok(())
}

#[test]
fn the_lowest_region_without_ends_comes_first(rt: HostRuntime) -> Result<(), Fail> {
    let mut plan = Plan::new(rt.alloc())?;
    assert_eq!(rt; plan.fork(0, 2), Ok(0));
    assert_eq!(rt; plan.lay(0, Statement::Idle), Ok(1));
    assert_eq!(rt; plan.ends(0, 0, 0), Ok(()));
    assert_eq!(rt; plan.lay(2, Statement::Idle), Ok(2));
    assert_eq!(rt; plan.ends(2, 2, 2), Ok(()));
    assert_eq!(rt; plan.whole(), Err(Refusal::NoEnds(1)));
    Ok(())
}

#[test]
fn nodes_are_reached_and_lead_on(rt: HostRuntime) -> Result<(), Fail> {
    let mut plan = Plan::new(rt.alloc())?;
    for n in 0..4usize {
        assert_eq!(rt; plan.lay(0, Statement::Idle), Ok(n));
    }
    assert_eq!(rt; plan.ends(0, 0, 3), Ok(()));
    assert_eq!(rt; plan.arc(0, 3), Ok(()));
    assert_eq!(rt; plan.arc(1, 2), Ok(()));
    assert_eq!(rt; plan.whole(), Err(Refusal::Unreached(1)));
    assert_eq!(rt; plan.arc(0, 1), Ok(()));
    assert_eq!(rt; plan.whole(), Err(Refusal::Stranded(1)));
    assert_eq!(rt; plan.arc(1, 0), Ok(()));
    assert_eq!(rt; plan.whole(), Err(Refusal::Stranded(2)));
    assert_eq!(rt; plan.arc(2, 1), Ok(()));
    assert_eq!(rt; plan.whole(), Ok(()));
    Ok(())
}

#[test]
fn refusals_have_numbers_and_places(rt: HostRuntime) {
    assert_eq!(rt; Refusal::Missing.number(), 1);
    assert_eq!(rt; Refusal::Full.number(), 7);
    assert_eq!(rt; Refusal::NoEnds(5).number(), 8);
    assert_eq!(rt; Refusal::NoEnds(5).place(), 5);
    assert_eq!(rt; Refusal::Unreached(6).place(), 6);
    assert_eq!(rt; Refusal::Stranded(7).number(), 10);
    assert_eq!(rt; Refusal::Stranded(7).place(), 7);
    assert_eq!(rt; Refusal::Outside.place(), 0);
}
