// Statements and calls as words.
ghost use Rattle.std.specs.Prelude.{Some};
ghost use Rattle.plan.specs.Printed.{statement_text, call_text};

use crate::call::Call;
use crate::statement::Statement;
use std::fmt;
use tenths::label::Tenths;

impl fmt::Display for Statement {
    ghost output = { λ statement. Some (statement_text statement) };

    fn fmt<W: fmt::Write>(&self, f: &mut fmt::Formatter<W>) -> fmt::Result {
        match *self {
            Statement::Idle => write!(f, "idle"),
            Statement::Wait => write!(f, "wait"),
            Statement::Set(v, c) => write!(f, "set {v} {}", Tenths(c)),
            Statement::Copy(v, a) => write!(f, "copy {v} {a}"),
            Statement::Send(a) => write!(f, "send {a}"),
            Statement::Probe(v, p) => write!(f, "probe {v} {p}"),
            Statement::Add(v, a, b) => write!(f, "add {v} {a} {b}"),
            Statement::Sub(v, a, b) => write!(f, "sub {v} {a} {b}"),
            Statement::Min(v, a, b) => write!(f, "min {v} {a} {b}"),
            Statement::Max(v, a, b) => write!(f, "max {v} {a} {b}"),
        }
    }
}

impl fmt::Display for Call {
    ghost output = { λ call. Some (call_text call) };

    fn fmt<W: fmt::Write>(&self, f: &mut fmt::Formatter<W>) -> fmt::Result {
        match *self {
            Call::Lay(region, statement) => write!(f, "lay {region} {statement}"),
            Call::Fork(region, branches) => write!(f, "fork {region} {branches}"),
            Call::Arc(from, to) => write!(f, "arc {from} {to}"),
            Call::Ends(region, first, last) => write!(f, "ends {region} {first} {last}"),
            Call::Change(node, statement) => write!(f, "change {node} {statement}"),
        }
    }
}
