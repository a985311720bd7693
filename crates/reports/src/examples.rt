// The lists and the report of the sample plan, and what they refuse.
use facts::constant::Constant;
use facts::fixed::Fixed;
use kinds::effects::passing;
use plan::call::Call;
use plan::conditions::Conditions;
use plan::node::Direction;
use plan::rows::draw;
use plan::statement::Statement;
use plan::stored::Plan;
use refusals::refusal::Refusal;
use report::event::{Event, Subject};
use report::fixing::fixed;
use report::listing::{dead, redundant};
use report::replay::replay;
use report::reporting::report;
use sample::CALLS;
use std::test::Fail;

// Whether the report is this text.
fn reports(plan: &Plan, conditions: Conditions, text: &[u8]) -> Result<bool, Fail> {
    let mut out = [0; 8192];
    let length = report(plan, conditions, &mut out)?;
    Ok(out.get(..length) == Some(text))
}

#[test]
fn a_plan_takes_changes_after_a_report(rt: HostRuntime) -> Result<(), Fail> {
    let mut plan = draw(rt.alloc(), &CALLS)?.plan;
    let mut conditions = Conditions::new();
    conditions.keep(3);
    assert!(rt;
        reports(
            &plan,
            conditions,
            b"2 sends -0.4\n4 redundant\nnodes 6 redundant 1 dead 0\n",
        )?
    );
    plan.change(5, Statement::Wait)?;
    assert!(rt;
        reports(
            &plan,
            conditions,
            b"2 sends -0.4\nnodes 6 redundant 0 dead 0\n",
        )?
    );
    plan.change(5, Statement::Set(2, 10))?;
    conditions.keep(0);
    assert!(rt;
        reports(
            &plan,
            conditions,
            b"0 dead\n2 sends 1.0\n3 dead\n4 redundant\n4 dead\nnodes 6 redundant 1 dead 3\n",
        )?
    );
    Ok(())
}

#[test]
fn short_buffers_are_refused_and_stay(rt: HostRuntime) -> Result<(), Fail> {
    let plan = draw(rt.alloc(), &CALLS)?.plan;
    let mut text = [7; 8191];
    assert_eq!(rt;
        report(&plan, Conditions::new(), &mut text),
        Err(Refusal::Short)
    );
    assert_eq!(rt; text[0], 7);
    let mut list = [7; 7];
    assert_eq!(rt; redundant(&plan, &mut list[0..5]), Err(Refusal::Short));
    assert_eq!(rt;
        dead(&plan, Conditions::new(), &mut list[0..5]),
        Err(Refusal::Short)
    );
    assert!(rt; list == [7; 7]);
    assert_eq!(rt; redundant(&plan, &mut list), Ok(()));
    assert!(rt; list == [0, 0, 0, 0, 1, 0, 7]);
    assert_eq!(rt; dead(&plan, Conditions::new(), &mut list), Ok(()));
    assert!(rt; list == [0, 0, 0, 1, 1, 0, 7]);
    Ok(())
}

#[test]
fn refusals_come_in_order(rt: HostRuntime) -> Result<(), Fail> {
    let new = Plan::new(rt.alloc())?;
    let mut none = [0; 0];
    assert_eq!(rt;
        report(&new, Conditions::new(), &mut none),
        Err(Refusal::NoEnds(0))
    );
    assert_eq!(rt; redundant(&new, &mut none), Err(Refusal::NoEnds(0)));
    assert_eq!(rt; fixed(&new, 16, 0), Err(Refusal::Missing));
    let plan = draw(rt.alloc(), &CALLS)?.plan;
    assert_eq!(rt; fixed(&plan, 16, 6), Err(Refusal::Missing));
    assert_eq!(rt; fixed(&plan, 16, 5), Err(Refusal::Operand));
    assert_eq!(rt; fixed(&plan, 15, 5), Ok(None));
    assert_eq!(rt; fixed(&plan, 2, 5), Ok(Some(-4)));
    assert_eq!(rt; fixed(&plan, 2, 0), Ok(None));
    Ok(())
}

#[test]
fn a_65th_expression_is_refused_at_its_node(rt: HostRuntime) -> Result<(), Fail> {
    let mut plan = Plan::new(rt.alloc())?;
    for a in 0..8u32 {
        for b in 0..8u32 {
            plan.lay(0, Statement::Sub(9, a, b))?;
        }
    }
    for n in 1..64usize {
        plan.arc(n - 1, n)?;
    }
    plan.ends(0, 0, 63)?;
    let mut list = [7; 66];
    assert_eq!(rt; redundant(&plan, &mut list), Ok(()));
    plan.lay(0, Statement::Sub(9, 0, 0))?;
    plan.lay(0, Statement::Sub(9, 8, 0))?;
    plan.arc(63, 64)?;
    plan.arc(64, 65)?;
    plan.ends(0, 0, 65)?;
    assert_eq!(rt;
        redundant(&plan, &mut list),
        Err(Refusal::TooManyExpressions(65))
    );
    Ok(())
}

#[test]
fn asking_between_the_calls_alters_nothing(rt: HostRuntime) -> Result<(), Fail> {
    let events = [
        Event::Report,
        Event::Draw(Call::Lay(0, Statement::Probe(0, 1))),
        Event::Sweep(Subject::Available, Direction::Forward),
        Event::Draw(Call::Lay(0, Statement::Probe(1, 1))),
        Event::Draw(Call::Arc(0, 1)),
        Event::Draw(Call::Arc(0, 1)),
        Event::Keep(2),
        Event::Draw(Call::Ends(0, 0, 1)),
        Event::Redundant,
        Event::Sweep(Subject::Dead, Direction::Backward),
        Event::Draw(Call::Change(0, Statement::Probe(0, 3))),
        Event::Fixed(2, 0),
        Event::Dead,
        Event::Draw(Call::Change(1, Statement::Probe(1, 3))),
    ];
    let kind = Fixed { variable: 0 };
    let mut values = [Constant::Unknown; 3];
    let mut effects = [passing(&kind); 2];
    let mut regions = [passing(&kind); 1];
    let mut list = [7; 3];
    let replayed = replay(
        rt.alloc(),
        &events,
        &kind,
        Direction::Forward,
        Constant::Unfixed,
        &mut values,
        &mut effects,
        &mut regions,
        &mut list,
    )?;
    assert_eq!(rt; replayed.swept, Ok(()));
    assert_eq!(rt; values[1], Constant::Unfixed);
    assert_eq!(rt; values[2], Constant::Unknown);
    assert!(rt; list == [0, 1, 7]);
    assert_eq!(rt; replayed.conditions.kept, 2);
    Ok(())
}
