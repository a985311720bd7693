// A row of events on a new plan.
ghost use Rattle.std.specs.Prelude.{◌≡◌, length, IfOk, MatchResult, OnErr};
ghost use Rattle.plan.specs.Calls.{after_all, drawn};
ghost use Rattle.sweep.specs.Swept.{Swept, Refused as SweepRefused, HasRoom};
ghost use Rattle.report.specs.Listing.{ListsRedundant, Refused};
ghost use Rattle.plan.specs.Stored.{seen};
ghost use Rattle.report.specs.Replayed.{call_in, calls_in, kept_by, kept_after, Promised};

use crate::event::{Event, Subject};
use crate::finding::find;
use crate::fixing::fixed;
use crate::listing::{dead, redundant};
use crate::reporting::{TEXT, report};
use bitset::bits::Bits;
use expressions::numbering::number;
use facts::available::Available;
use facts::bitwise::Bitwise;
use facts::constant::Constant;
use facts::dead::Dead;
use facts::fixed::Fixed;
use kinds::effect::Effect;
use kinds::kind::Kind;
use plan::conditions::Conditions;
use plan::node::Direction;
use plan::stored::{NODES, Plan};
use refusals::refusal::Refusal;
use std::alloc::{AllocError, Global};
use sweep::sweeping::sweep;

// Sweeps a plan as an event asks. What it is swept for is a part of the event, a value like it, and
// so is told by a match.
fn sweep_for(plan: &Plan, subject: Subject, direction: Direction) -> Result<(), Refusal> {
    match subject {
        Subject::Available => {
            let expressions = number(plan.nodes())?;
            let kind = Bitwise(Available { expressions });
            let start = Bits::none();
            find(plan, &kind, direction, start, &mut [start; NODES])?;
        }
        Subject::Dead => {
            let start = Bits::every();
            find(
                plan,
                &Bitwise(Dead {}),
                direction,
                start,
                &mut [start; NODES],
            )?;
        }
        Subject::Fixed(variable) => {
            let kind = Fixed { variable };
            let start = Constant::Unfixed;
            find(plan, &kind, direction, start, &mut [start; NODES])?;
        }
    }
    Ok(())
}

// Writes a report and drops it.
fn report_only(plan: &Plan, conditions: Conditions) -> Result<usize, Refusal> {
    let mut text = [0; TEXT];
    report(plan, conditions, &mut text)
}

// Does what an event says. What it asks for is found, and dropped. An event is a value, since the contracts speak of rows of
// events, and so what to do is told by a match.
fn perform(plan: &mut Plan, conditions: &mut Conditions, event: Event)
    ensures plan { seen plan.new ≡ after_all (seen plan.old) (call_in event) }
    ensures conditions { conditions.new.kept ≡ kept_by conditions.old.kept event }
{
    let mut list = [0; NODES];
    match event {
        Event::Draw(call) => {
            let _ = plan.perform(call);
        }
        Event::Keep(mask) => conditions.keep(mask),
        Event::Sweep(subject, direction) => {
            let _ = sweep_for(plan, subject, direction);
        }
        Event::Redundant => {
            let _ = redundant(plan, &mut list);
        }
        Event::Dead => {
            let _ = dead(plan, *conditions, &mut list);
        }
        Event::Fixed(variable, node) => {
            let _ = fixed(plan, variable, node);
        }
        Event::Report => {
            let _ = report_only(plan, *conditions);
        }
    }
}

// Does what the events say, one after another, each on the plan as it is.
fn perform_all(plan: &mut Plan, conditions: &mut Conditions, events: &[Event])
    ensures plan { seen plan.new ≡ after_all (seen plan.old) (calls_in events.now) }
    ensures conditions { conditions.new.kept ≡ kept_after conditions.old.kept events.now }
{
    for event in events {
        perform(plan, conditions, *event);
    }
}

// What a row of events came to: the plan with its conditions, and whether its sweep and its list were refused.
#[derive(Drop)]
pub struct Replayed {
    pub plan: Plan,
    pub conditions: Conditions,
    pub swept: Result<(), Refusal>,
    pub listed: Result<(), Refusal>,
}

// Performs a row of events on a new plan, sweeps the plan that they leave, and lists its redundant steps. It is lent the
// buffers one by one, as a sweep is.
pub fn replay<K: Kind>(
    heap: Global,
    events: &[Event],
    kind: &K,
    direction: Direction,
    start: K::Value,
    values: &mut [K::Value],
    effects: &mut [Effect<K::Gate, K::Value>],
    regions: &mut [Effect<K::Gate, K::Value>],
    list: &mut [u8],
) -> Result<Replayed, AllocError>
    ensures promise { IfOk result (λ d. Promised (K.Kind.algebra kind.now) (drawn (calls_in events.now)) direction start
        (length values.old) (length effects.old) (length regions.old) d.swept values.new d.listed list.new) }
    ensures plan { IfOk result (λ d. (seen d.plan ≡ drawn (calls_in events.now)) × (d.conditions.kept ≡ kept_after 0 events.now)) }
    ensures swept { IfOk result (λ d. MatchResult d.swept
        (λ _. Swept (K.Kind.algebra kind.now) (drawn (calls_in events.now)) direction start values.old values.new effects.old effects.new regions.old regions.new)
        (λ e. SweepRefused (drawn (calls_in events.now)) (length values.old) (length effects.old) (length regions.old) e
        × ((values.new ≡ values.old) × (effects.new ≡ effects.old) × (regions.new ≡ regions.old)))) }
    ensures room { IfOk result (λ d. IfOk d.swept (λ _. HasRoom (drawn (calls_in events.now)) (length values.old) (length effects.old) (length regions.old))) }
    ensures listed { IfOk result (λ d. MatchResult d.listed
        (λ _. ListsRedundant (drawn (calls_in events.now)) list.old list.new)
        (λ e. Refused (drawn (calls_in events.now)) (length (drawn (calls_in events.now)).nodes) (length list.old) e × (list.new ≡ list.old))) }
    ensures unmade { OnErr result ((values.new ≡ values.old) × (effects.new ≡ effects.old) × (regions.new ≡ regions.old) × (list.new ≡ list.old)) }
{
    let mut plan = Plan::new(heap)?;
    let mut conditions = Conditions::new();
    perform_all(&mut plan, &mut conditions, events);
    let swept = sweep(&plan, kind, direction, start, values, effects, regions);
    let listed = redundant(&plan, list);
    Ok(Replayed {
        plan,
        conditions,
        swept,
        listed,
    })
}
