// The program's whole work on slices: a sheet in, the sheet with the plain finder's results out, or the line of a refusal. Contracts cite
// `specs/Results` and `specs/Fill`.
#![tactic(auto)]

ghost use Rattle.std.specs.Prelude.{◌≡◌, ◌≤◌};
ghost use Rattle.kinds.specs.Limits.{most_tasks};
ghost use Rattle.refusal_line.specs.Fronts.{Fronts};
ghost use Rattle.fill.specs.Results.{results_of, Plans};
ghost use Rattle.fill.specs.Fill.{planned, filled, Fills};

use kinds::{Granted, Refusal, Results, Sheet, Table};
use std::array;

// The results section of the first n entries of a plan's two outputs.
fn results_of(
    periods: [u32; Table::MOST_TASKS],
    processors: [u16; Table::MOST_TASKS],
    n: usize,
) -> Results
    requires { n ≤ most_tasks }
    ensures { result ≡ results_of periods processors n }
{
    let rows = array::from_fn(|i| {
        if i < n {
            Granted {
                period: periods[i],
                processor: processors[i],
            }
        } else {
            Granted::NONE
        }
    });
    Results { rows, n }
}

// The plain finder's answer to a sheet, and the sheet with that plan for its results. It is no Result: the sheet of a refusal is promised to be
// handed back as it was (`Plans`).
#[derive(Clone, Copy)]
pub struct SheetPlan {
    pub answer: Result<u32, Refusal>,
    pub sheet: Sheet,
}

// Fills in a sheet from the plain finder, replacing older results.
pub fn fill_sheet(x: Sheet) -> SheetPlan
    ensures { Plans x result }
{
    let mut periods = [0u32; Table::MOST_TASKS];
    let mut processors = [0u16; Table::MOST_TASKS];
    let answer = plain_finder::find(x.table, x.settings, &mut periods, &mut processors);
    if answer.is_err() {
        return SheetPlan { answer, sheet: x };
    }
    let results = results_of(periods, processors, x.table.n);
    let sheet = Sheet { results, ..x };
    SheetPlan { answer, sheet }
}

// Fills in the sheet that was read, or refuses it; a refusal writes nothing.
pub fn fill_in(input: &[u8], out: &mut [u8; sheet::LONGEST]) -> Result<usize, Refusal>
    ensures { Fills (planned input.now) out.old result out.new }
{
    let reading = sheet::read(input);
    reading.verdict?;
    let plan = fill_sheet(reading.sheet);
    plan.answer?;
    writer::write(plan.sheet, out)
}

// What the program writes for what it read, the filled sheet or the line of its refusal; returns how many bytes.
pub fn fill(input: &[u8], out: &mut [u8; sheet::LONGEST]) -> usize
    ensures { Fronts (filled input.now) out.old result out.new }
{
    refusal_line::count_or_line(fill_in(input, out), out)
}
