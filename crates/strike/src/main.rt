// Draws a plan, and prints what happened.
#![tactic(auto)]

use plan::conditions::Conditions;
use plan::node::Node;
use plan::rows::{Drawing, draw};
use plan::statement::Statement;
use plan::stored::Plan;
use sample::{CALLS, KEPT};
use std::io;
use tenths::label::Tenths;

// Prints each call with what it answered.
fn tell_answers(rt: &HostRuntime, drawing: &Drawing) -> io::Result<()> {
    for (call, answer) in CALLS.iter().zip(drawing.answers.iter()) {
        match answer {
            Ok(Some(node)) => println!(rt; "{call}: node {node}")?,
            Ok(None) => println!(rt; "{call}: done")?,
            Err(refusal) => println!(rt; "{call}: {refusal}")?,
        }
    }
    Ok(())
}

// Prints whether the plan is whole.
fn tell_whole(rt: &HostRuntime, plan: &Plan) -> io::Result<()> {
    match plan.whole() {
        Ok(()) => println!(rt; "the plan is whole"),
        Err(refusal) => println!(rt; "the plan is not whole: {refusal}"),
    }
}

// Prints the constants that the plan sets, as they stand on a label.
fn tell_constants(rt: &HostRuntime, plan: &Plan) -> io::Result<()> {
    for (n, node) in plan.nodes().iter().enumerate() {
        if let Node::Step(_, Statement::Set(_, constant)) = node {
            println!(rt; "node {n} sets {}", Tenths(*constant))?;
        }
    }
    Ok(())
}

fn main(rt: HostRuntime) -> io::Result<()> {
    let drawing = draw(rt.alloc(), &CALLS)?;
    tell_answers(&rt, &drawing)?;
    let mut conditions = Conditions::new();
    conditions.keep(KEPT);
    println!(rt; "keep {}: done", conditions.kept)?;
    tell_whole(&rt, &drawing.plan)?;
    tell_constants(&rt, &drawing.plan)
}
