// From a plan to a clock. The promise is `PlanIs` of `specs/ClockPlan`; that a start never refuses the periods of an accepted plan is
// `accepted-starts` of `proofs/Accepted`.
#![tactic(auto)]

ghost use Rattle.std.specs.Prelude.{true};
ghost use Rattle.outcome.specs.Plan.{outcome};
ghost use Rattle.planned_clock.specs.ClockPlan.{PlanIs};

use clock::Clock;
use kinds::{Refusal, Settings, Table};

// The step of an accepted plan, and the clock that its periods start.
#[derive(Clone, Copy)]
pub struct Planned {
    pub step: u32,
    pub clock: Clock,
}

// Ask 12: "From an accepted plan start a clock table". Writes the plain finder's plan to the two lent outputs, and starts a clock with its
// periods.
pub fn start_plan(
    table: Table,
    settings: Settings,
    tick: u32,
    periods: &mut [u32],
    processors: &mut [u16],
) -> Result<Planned, Refusal>
    ensures { PlanIs (outcome true settings table.rows table.n periods.old processors.old)
        settings table.rows table.n tick result periods.new processors.new }
{
    let n = table.n;
    let step = plain_finder::find(table, settings, periods, processors)?;
    let clock = clock::start(&periods[..n], tick)?;
    Ok(Planned { step, clock })
}
