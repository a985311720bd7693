// The report of a plan.
ghost use Rattle.std.specs.Prelude.{◌≡◌, length, MatchResult};
ghost use Rattle.plan.specs.Stored.{seen};
ghost use Rattle.report.specs.Listing.{Refused};
ghost use Rattle.report.specs.Reported.{Reports};

use crate::listing::{dead, redundant};
use crate::marks::Marks;
use crate::sending::find_sent;
use crate::text::put_report;
use plan::conditions::Conditions;
use plan::stored::{NODES, Plan};
use refusals::refusal::Refusal;

// The bytes that are needed for a text, whatever it says.
pub const TEXT: usize = 8192;

// Writes for each node in order whether it is redundant, whether it is dead and which fixed number it sends, and last the
// totals. Answers the length of the text.
pub fn report(plan: &Plan, conditions: Conditions, out: &mut [u8]) -> Result<usize, Refusal>
    ensures { MatchResult result
        (λ written. Reports (seen plan.now) conditions.kept out.old out.new written)
        (λ e. Refused (seen plan.now) 8192 (length out.old) e × (out.new ≡ out.old)) }
{
    let nodes = plan.nodes().len();
    let mut listed = [0; NODES];
    redundant(plan, &mut listed)?;
    if out.len() < TEXT {
        return Err(Refusal::Short);
    }
    let mut unread = [0; NODES];
    dead(plan, conditions, &mut unread)?;
    let mut sent = [None; NODES];
    find_sent(plan, &mut sent)?;
    let marks = Marks {
        redundant: &listed[0..nodes],
        dead: &unread[0..nodes],
        sent: &sent,
    };
    Ok(put_report(&marks, out))
}
