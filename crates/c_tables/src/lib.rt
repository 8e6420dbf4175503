// Calls on a table or on one record by value, in numbers. An enum does not cross to C, so a policy comes as its number, and an answer goes as
// document 01's numbers: 0 for an acceptance. Contracts cite `specs/Told`, which reads the numbers as the calls' own promises. `eelbasket` exports
// these calls.
#![tactic(auto)]

ghost use Rattle.std.specs.Prelude.{true, ◌≡◌};
ghost use Rattle.kinds.specs.Answer.{handed};
ghost use Rattle.share.specs.Share.{share_under};
ghost use Rattle.outcome.specs.Plan.{outcome};
ghost use Rattle.margin.specs.Margin.{margin_handed};
ghost use Rattle.proposal.specs.Proposal as checker;
ghost use Rattle.relief.specs.Relief.{relieved};
ghost use Rattle.wide_finder.specs.Wide as wide;
ghost use Rattle.reason.specs.Reason.{reason_of, reason_number};
ghost use Rattle.reason.specs.WideReason.{wide_reason_of, wide_reason_number};
ghost use Rattle.c_numbers.specs.Numbers.{station_settings};
ghost use Rattle.c_tables.specs.Told.{told_handed, told_margin, ToldMeets, ToldLooked, ToldProposal, ToldRelieved};

use c_numbers::{Station, ToldVerdict};
use kinds::{Refusal, Table, Task};
use relief::Relief;
use wide_task::{WideTable, WideTask};

// Number, step, looks and place. A refusal's step is 0; the plain finder makes no looks.
#[repr(C)]
#[derive(Clone, Copy)]
pub struct Told {
    pub number: u32,
    pub step: u32,
    pub looks: u32,
    pub place: usize,
}

// Number, place and margin. A refusal's margin is 0.
#[repr(C)]
#[derive(Clone, Copy)]
pub struct ToldMargin {
    pub number: u32,
    pub place: usize,
    pub margin: i64,
}

// Number and place, the least step and that with one processor more, each as a number: 0 for none, else the step + 1.
#[repr(C)]
#[derive(Clone, Copy)]
pub struct ToldRelief {
    pub number: u32,
    pub least: u32,
    pub more: u32,
    pub place: usize,
}

// An answer in numbers, with its looks.
fn tell(answer: Result<u32, Refusal>, looks: u32) -> Told
    ensures { (told_handed result ≡ handed answer) × (result.looks ≡ looks) }
{
    let told = ToldVerdict::from(answer);
    Told {
        number: told.number,
        step: answer.unwrap_or(0),
        looks,
        place: told.place,
    }
}

// The plain finder on a table by value.
pub fn plain_told(
    table: Table,
    station: Station,
    periods: &mut [u32],
    processors: &mut [u16],
) -> Told
    ensures { ToldMeets (outcome true (station_settings station) table.rows table.n periods.old processors.old)
        result periods.new processors.new }
{
    tell(
        plain_finder::find(table, station.into(), periods, processors),
        0,
    )
}

// The quick finder on a table by value.
pub fn quick_told(
    table: Table,
    station: Station,
    periods: &mut [u32],
    processors: &mut [u16],
) -> Told
    ensures { ToldLooked (station_settings station) table.rows table.n periods.old processors.old
        result periods.new processors.new }
{
    let looked = quick_finder::find(table, station.into(), periods, processors);
    tell(looked.answer, looked.looks)
}

// The margin on a table by value.
pub fn margin_told(table: Table, station: Station, step: u32) -> ToldMargin
    ensures { told_margin result ≡ margin_handed (station_settings station) table.rows table.n step }
{
    let margin = margin::margin_at(table, station.into(), step);
    let told = ToldVerdict::from(margin);
    ToldMargin {
        number: told.number,
        place: told.place,
        margin: margin.unwrap_or(0),
    }
}

// What would relieve a table by value.
pub fn relief_told(table: Table, station: Station, without: &mut [u32]) -> ToldRelief
    ensures { ToldRelieved (relieved (station_settings station) table.rows table.n without.old) result without.new }
{
    let answer = relief::relief_of(table, station.into(), without);
    let told = ToldVerdict::from(answer);
    let relief = answer.unwrap_or(Relief::NONE);
    ToldRelief {
        number: told.number,
        least: relief.least,
        more: relief.more,
        place: told.place,
    }
}

// The checker of a proposal on a table by value.
pub fn check_proposal_told(
    table: Table,
    station: Station,
    step: u32,
    proposal: &[u16],
    loads: &mut [u32],
) -> ToldVerdict
    ensures { ToldProposal
        (checker.outcome (station_settings station) table.rows table.n step proposal.now loads.old)
        result loads.new }
{
    proposal::check(table, station.into(), step, proposal, loads).into()
}

// The finder for tasks that need several cores, on a table by value.
pub fn wide_told(table: WideTable, m: u16, periods: &mut [u32], cores: &mut [u16]) -> Told
    ensures { ToldMeets (wide.outcome m table.rows table.n periods.old cores.old)
        result periods.new cores.new }
{
    tell(wide_finder::find(table, m, periods, cores), 0)
}

// The number of the first limit that a record breaks where a swap costs w and a notch is q; 0 of a good one.
pub fn reason_told(task: Task, w: u16, q: u16) -> u32
    ensures { result ≡ reason_number (reason_of w q task) }
{
    let reason = reason::reason_of(task, w, q);
    reason.map_or(0, |reason| u32::from(reason.number()))
}

// The same of a task that needs several cores.
pub fn wide_reason_told(task: WideTask) -> u32
    ensures { result ≡ wide_reason_number (wide_reason_of task) }
{
    let reason = reason::wide_reason_of(task);
    reason.map_or(0, |reason| u32::from(reason.number()))
}

// The share of a record at any step; 0 where it is not good.
pub fn share_told(task: Task, station: Station, step: u32) -> u32
    ensures { result ≡ share_under (station_settings station) task step }
{
    let share = share::share_at(task, station.into(), step);
    share.parts as u32
}
