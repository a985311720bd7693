// The plan that the programs draw.
#![tactic(auto)]

use plan::call::Call;
use plan::statement::Statement;

// A set threshold, two probe readings beside an idle branch, and the threshold sent.
pub const CALLS: [Call; 12] = [
    Call::Lay(0, Statement::Set(2, -4)),
    Call::Fork(0, 2),
    Call::Lay(0, Statement::Send(2)),
    Call::Arc(0, 1),
    Call::Arc(1, 2),
    Call::Ends(0, 0, 2),
    Call::Lay(1, Statement::Probe(0, 3)),
    Call::Lay(1, Statement::Probe(1, 3)),
    Call::Arc(3, 4),
    Call::Ends(1, 3, 4),
    Call::Lay(2, Statement::Idle),
    Call::Ends(2, 5, 5),
];

// The kept set: variables 0 and 1.
pub const KEPT: u16 = 3;
