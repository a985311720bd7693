// What can be done with a plan and its conditions, as values.
use plan::call::Call;
use plan::node::Direction;

// The kinds of fact with which an event may sweep a plan.
#[derive(Clone, Copy)]
pub enum Subject {
    // which expressions are available
    Available,
    // which variables are dead
    Dead,
    // the fixed value of a variable
    Fixed(u32),
}

#[derive(Clone, Copy)]
pub enum Event {
    // a call that draws
    Draw(Call),
    // the kept set is replaced
    Keep(u16),
    // the plan is swept
    Sweep(Subject, Direction),
    // the redundant steps are asked for
    Redundant,
    // the dead steps are asked for
    Dead,
    // the value of a variable before a node is asked for
    Fixed(u32, usize),
    // the report is asked for
    Report,
}
