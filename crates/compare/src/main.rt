// Draws many small plans, and compares what the library finds with what a listing of their runs leaves.
#![tactic(auto)]

use bitset::bits::Bits;
use comparing::Case;
use counter::Counter;
use dice::Dice;
use drawing::draw;
use expressions::numbering::number;
use facts::available::Available;
use facts::bitwise::Bitwise;
use facts::constant::Constant;
use facts::dead::Dead;
use facts::fixed::Fixed;
use pairs::pair::Pair;
use plan::conditions::Conditions;
use reference::unlisted::Unlisted;
use shapes::Shapes;
use std::alloc::Global;
use std::io;
use tally::{Comparisons, Tally};

mod answers;
mod comparing;
mod counter;
mod dice;
mod drawing;
mod shapes;
mod tally;

// How many plans are drawn.
const PLANS: u64 = 1000;

// What became of the plans that were drawn.
#[derive(Default, Drop)]
struct Outcome {
    tally: Tally,
    shapes: Shapes,
    // plans that are not whole
    refused: Counter,
    // plans with too many runs to list
    crowded: Counter,
    // plans that could not be drawn, and whole ones of which something was refused
    failed: Counter,
}

impl Case<'_> {
    // Compares available expressions, dead variables and the pair of them, in both directions.
    fn compare_words(
        &self,
        available: Bitwise<Available>,
        count: &mut Comparisons,
    ) -> Result<(), Unlisted> {
        let kind = Pair {
            left: available,
            right: Bitwise(Dead {}),
        };
        let start = Pair {
            left: Bits::except(self.conditions.kept),
            right: Bits::every(),
        };
        self.compare_both_ways(&kind.left, start.left, count)?;
        self.compare_both_ways(&kind.right, start.right, count)?;
        self.compare_both_ways(&kind, start, count)
    }

    // Compares the values of a variable, and of the pair of two, in both directions.
    fn compare_constants(&self, count: &mut Comparisons) -> Result<(), Unlisted> {
        let kind = Pair {
            left: Fixed { variable: 0 },
            right: Fixed { variable: 1 },
        };
        let start = Pair {
            left: Constant::Number(-4),
            right: Constant::Unfixed,
        };
        self.compare_both_ways(&kind.left, start.left, count)?;
        self.compare_both_ways(&kind, start, count)
    }

    // Compares every fact.
    fn compare(&self, tally: &mut Tally) -> Result<(), Unlisted> {
        let available = Bitwise(Available {
            expressions: number(self.plan.nodes())?,
        });
        self.compare_redundant(&available, tally)?;
        self.compare_dead(tally)?;
        for variable in 0..3 {
            self.compare_fixed(variable, tally)?;
        }
        self.compare_words(available, &mut tally.values)?;
        self.compare_constants(&mut tally.values)
    }
}

impl Outcome {
    // Draws a plan and, if it is whole, compares it. Nothing is counted of a plan that has too many runs.
    fn take_one(&mut self, heap: Global, dice: &mut Dice) -> Result<(), Unlisted> {
        let plan = draw(heap, dice)?;
        let mut conditions = Conditions::new();
        conditions.keep(dice.below(8) as u16);
        if plan.whole().is_err() {
            self.refused.add_one();
            return Ok(());
        }
        let case = Case {
            heap,
            plan: &plan,
            conditions,
        };
        let mut tally = self.tally;
        case.compare(&mut tally)?;
        self.tally = tally;
        self.shapes.note(&plan);
        Ok(())
    }

    // Draws a plan and counts what became of it.
    fn count_one(&mut self, heap: Global, dice: &mut Dice) {
        match self.take_one(heap, dice) {
            Ok(()) => {}
            Err(Unlisted::TooMany) => self.crowded.add_one(),
            Err(Unlisted::Refused(_) | Unlisted::TooLarge | Unlisted::NoMemory) => {
                self.failed.add_one();
            }
        }
    }
}

// Prints how many plans were drawn and compared.
fn tell_plans(rt: &HostRuntime, outcome: &Outcome) -> io::Result<()> {
    println!(rt;
        "plans {PLANS} drawn, {} not whole, {} with too many runs, {} failed",
        outcome.refused, outcome.crowded, outcome.failed
    )?;
    println!(rt; "plans {}", outcome.shapes)
}

// Prints what was compared.
fn tell_counts(rt: &HostRuntime, tally: &Tally) -> io::Result<()> {
    println!(rt; "values {} not the start value", tally.values)?;
    println!(rt; "bytes of redundant steps {} redundant", tally.redundant)?;
    println!(rt; "bytes of dead steps {} dead", tally.dead)?;
    println!(rt; "fixed values {} numbers", tally.fixed)
}

fn main(rt: HostRuntime) -> io::Result<()> {
    let mut dice = Dice::new(1);
    let mut outcome = Outcome::default();
    for _plan in 0..PLANS {
        outcome.count_one(rt.alloc(), &mut dice);
    }
    tell_plans(&rt, &outcome)?;
    tell_counts(&rt, &outcome.tally)
}
