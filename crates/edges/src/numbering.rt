// The numbers that expressions are given.
use expressions::expression::Expression;
use expressions::numbering::number;
use plan::statement::Statement;
use plan::stored::Plan;
use refusals::refusal::Refusal;
use std::test::Fail;

// Nodes 0 to 63 compute 64 expressions, node 64 one of them again, and node 65 none.
#[test]
fn expressions_fill_up(rt: HostRuntime) -> Result<(), Fail> {
    let mut plan = Plan::new(rt.alloc())?;
    for a in 0..8u32 {
        for b in 0..8u32 {
            plan.lay(0, Statement::Add(15, a, b))?;
        }
    }
    plan.lay(0, Statement::Add(14, 7, 7))?;
    plan.lay(0, Statement::Copy(0, 1))?;
    let table = number(plan.nodes())?;
    assert_eq!(rt; table.as_slice().len(), 64);
    assert!(rt; table.position(Expression::Add(7, 6)) == Some(62));
    plan.lay(0, Statement::Sub(0, 7, 6))?;
    plan.lay(0, Statement::Probe(0, 0))?;
    let refusal = number(plan.nodes()).err();
    assert_eq!(rt; refusal, Some(Refusal::TooManyExpressions(66)));
    Ok(())
}
