// The five calls that draw a plan.
use plan::conditions::Conditions;
use plan::statement::Statement;
use plan::stored::Plan;
use refusals::refusal::Refusal;
use std::test::Fail;

#[test]
fn nodes_fill_up(rt: HostRuntime) -> Result<(), Fail> {
    let mut plan = Plan::new(rt.alloc())?;
    for n in 0..256usize {
        assert_eq!(rt; plan.lay(0, Statement::Idle), Ok(n));
    }
    assert_eq!(rt; plan.lay(0, Statement::Idle), Err(Refusal::Full));
    assert_eq!(rt; plan.fork(0, 2), Err(Refusal::Full));
    assert_eq!(rt; plan.arc(255, 0), Ok(()));
    assert_eq!(rt; plan.arc(256, 0), Err(Refusal::Missing));
    assert_eq!(rt; plan.change(255, Statement::Wait), Ok(()));
    assert_eq!(rt; plan.change(256, Statement::Wait), Err(Refusal::Missing));
    Ok(())
}

#[test]
fn regions_fill_up(rt: HostRuntime) -> Result<(), Fail> {
    let mut plan = Plan::new(rt.alloc())?;
    for n in 0..7usize {
        assert_eq!(rt; plan.fork(0, 8), Ok(n));
    }
    assert_eq!(rt; plan.fork(0, 8), Err(Refusal::Full));
    assert_eq!(rt; plan.lay(57, Statement::Idle), Err(Refusal::Missing));
    assert_eq!(rt; plan.fork(0, 7), Ok(7));
    assert_eq!(rt; plan.fork(0, 2), Err(Refusal::Full));
    assert_eq!(rt; plan.lay(63, Statement::Idle), Ok(8));
    assert_eq!(rt; plan.lay(64, Statement::Idle), Err(Refusal::Missing));
    Ok(())
}

#[test]
fn arcs_fill_up(rt: HostRuntime) -> Result<(), Fail> {
    let mut plan = Plan::new(rt.alloc())?;
    for n in 0..33usize {
        assert_eq!(rt; plan.lay(0, Statement::Idle), Ok(n));
    }
    for from in 0..32usize {
        for to in 0..32usize {
            assert_eq!(rt; plan.arc(from, to), Ok(()));
        }
    }
    assert_eq!(rt; plan.arc(0, 32), Err(Refusal::Full));
    assert_eq!(rt; plan.arc(31, 31), Err(Refusal::Repeated));
    Ok(())
}

#[test]
fn forks_have_two_to_eight_branches(rt: HostRuntime) -> Result<(), Fail> {
    let mut plan = Plan::new(rt.alloc())?;
    assert_eq!(rt; plan.fork(0, 1), Err(Refusal::Branches));
    assert_eq!(rt; plan.fork(0, 2), Ok(0));
    assert_eq!(rt; plan.fork(0, 8), Ok(1));
    assert_eq!(rt; plan.fork(0, 9), Err(Refusal::Branches));
    assert_eq!(rt; plan.fork(11, 9), Err(Refusal::Missing));
    assert_eq!(rt; plan.change(0, Statement::Idle), Err(Refusal::NotStep));
    Ok(())
}

#[test]
fn operands_are_in_range(rt: HostRuntime) -> Result<(), Fail> {
    let mut plan = Plan::new(rt.alloc())?;
    assert_eq!(rt; plan.lay(0, Statement::Set(15, 1)), Ok(0));
    assert_eq!(rt; plan.lay(0, Statement::Set(16, 1)), Err(Refusal::Operand));
    assert_eq!(rt; plan.lay(0, Statement::Probe(15, 7)), Ok(1));
    assert_eq!(rt; plan.lay(0, Statement::Probe(15, 8)), Err(Refusal::Operand));
    assert_eq!(rt; plan.lay(0, Statement::Probe(16, 7)), Err(Refusal::Operand));
    assert_eq!(rt;
        plan.lay(0, Statement::Add(1, 2, 16)),
        Err(Refusal::Operand)
    );
    assert_eq!(rt;
        plan.lay(0, Statement::Max(1, 99999, 2)),
        Err(Refusal::Operand)
    );
    assert_eq!(rt; plan.lay(1, Statement::Send(16)), Err(Refusal::Missing));
    assert_eq!(rt;
        plan.change(0, Statement::Copy(15, 16)),
        Err(Refusal::Operand)
    );
    assert_eq!(rt; plan.change(0, Statement::Copy(15, 15)), Ok(()));
    Ok(())
}

#[test]
fn arcs_and_ends_stay_in_a_region(rt: HostRuntime) -> Result<(), Fail> {
    let mut plan = Plan::new(rt.alloc())?;
    assert_eq!(rt; plan.fork(0, 2), Ok(0));
    assert_eq!(rt; plan.lay(1, Statement::Idle), Ok(1));
    assert_eq!(rt; plan.arc(0, 1), Err(Refusal::Outside));
    assert_eq!(rt; plan.arc(1, 1), Ok(()));
    assert_eq!(rt; plan.arc(1, 1), Err(Refusal::Repeated));
    assert_eq!(rt; plan.ends(1, 1, 0), Err(Refusal::Outside));
    assert_eq!(rt; plan.ends(3, 1, 1), Err(Refusal::Missing));
    assert_eq!(rt; plan.ends(1, 1, 2), Err(Refusal::Missing));
    assert_eq!(rt; plan.ends(1, 1, 1), Ok(()));
    Ok(())
}

#[test]
fn a_new_record_keeps_nothing(rt: HostRuntime) {
    let mut conditions = Conditions::new();
    assert_eq!(rt; conditions.kept, 0);
    conditions.keep(65535);
    assert_eq!(rt; conditions.kept, 65535);
    conditions.keep(3);
    assert_eq!(rt; conditions.kept, 3);
}
