// The variables that a statement names.
ghost use Rattle.std.specs.Prelude.{◌≡◌};
ghost use Rattle.plan.specs.Statements.{assigns as assigns_of};
ghost use Rattle.expressions.specs.Variables.{assigned, used, variables_in};

use plan::statement::Statement;

// The variable that a statement assigns.
pub fn target(statement: Statement) -> Option<u32>
    ensures { variables_in result ≡ assigns_of statement }
{
    match statement {
        Statement::Idle | Statement::Wait | Statement::Send(_) => None,
        Statement::Set(v, _)
        | Statement::Copy(v, _)
        | Statement::Probe(v, _)
        | Statement::Add(v, _, _)
        | Statement::Sub(v, _, _)
        | Statement::Min(v, _, _)
        | Statement::Max(v, _, _) => Some(v),
    }
}

// Whether a statement assigns a variable.
pub fn assigns(statement: Statement, variable: u32) -> bool
    ensures { result ≡ assigned variable statement }
{
    target(statement) == Some(variable)
}

// Whether a statement uses a variable.
pub fn uses(statement: Statement, variable: u32) -> bool
    ensures { result ≡ used variable statement }
{
    match statement {
        Statement::Idle | Statement::Wait | Statement::Set(_, _) | Statement::Probe(_, _) => false,
        Statement::Copy(_, a) | Statement::Send(a) => a == variable,
        Statement::Add(_, a, b)
        | Statement::Sub(_, a, b)
        | Statement::Min(_, a, b)
        | Statement::Max(_, a, b) => { a == variable || b == variable }
    }
}
