// Ask 7: a plan for the cores that nobody needs to trust: what the planner proposes is handed on only where the checker accepts it. The
// contract cites `specs/Planned`.
#![tactic(auto)]

ghost use Rattle.checked_proposal.specs.Planned.{HandsOn};

use kinds::{Refusal, Settings, Table};

// Writes a processor for each task at a step, and the m loads, where the checker accepts what the planner proposes; a refused call writes
// nothing. Refusals 2, 3, 5 and 6 are the checker's; 13 and 14 can remain, since nothing is promised of the planner.
pub fn plan_or_refuse(
    table: Table,
    settings: Settings,
    step: u32,
    proposal: &mut [u16],
    loads: &mut [u32],
) -> Result<(), Refusal>
    ensures { HandsOn settings table.rows table.n step proposal.old loads.old
        result proposal.new loads.new }
{
    let n = table.n;
    let planned = planner::propose(table, settings, step);
    let entries = proposal.len().min(Table::MOST_TASKS);
    proposal::check(table, settings, step, &planned[..entries], loads)?;
    proposal[..n].copy_from_slice(&planned[..n]);
    Ok(())
}
