// Draws a plan, and prints its report.
#![tactic(auto)]

use facts::constant::Constant;
use facts::fixed::Fixed;
use kinds::effects::passing;
use plan::node::Direction;
use plan::stored::{NODES, REGIONS};
use report::event::Event;
use report::replay::replay;
use report::reporting::{TEXT, report};
use sample::{CALLS, KEPT};
use std::io::Write;
use std::{array, io};

// The calls of the sample, and behind them the kept set.
fn events() -> [Event; CALLS.len() + 1] {
    array::from_fn(|i| match CALLS.get(i) {
        Some(call) => Event::Draw(*call),
        None => Event::Keep(KEPT),
    })
}

// Performs the events with the value of variable 2 swept, and prints the report of the plan that they leave.
fn main(rt: HostRuntime) -> io::Result<()> {
    let kind = Fixed { variable: 2 };
    let mut values = [Constant::Unknown; NODES];
    let mut effects = [passing(&kind); NODES];
    let mut regions = [passing(&kind); REGIONS];
    let mut list = [0; NODES];
    let replayed = replay(
        rt.alloc(),
        &events(),
        &kind,
        Direction::Forward,
        Constant::Unfixed,
        &mut values,
        &mut effects,
        &mut regions,
        &mut list,
    )?;
    let mut text = [0; TEXT];
    match report(&replayed.plan, replayed.conditions, &mut text) {
        Ok(length) => rt.stdout().write_all(&text[0..length]),
        Err(refusal) => println!(rt; "{refusal}"),
    }
}
