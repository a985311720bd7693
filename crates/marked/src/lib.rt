// What is known of some small plans. The function here states one theorem, and does nothing.
#![tactic(auto)]

ghost use Rattle.marked.specs.Marked.{MarkedPlans};

// Every row of the table holds: what a row of calls draws has the fact that the row asks for.
pub fn marked_plans()
    ensures { MarkedPlans }
{}
