// The library for C and Rust: the calls of the rooms that tell (`c_tables`, `c_kept`, `c_clock`, `c_sheets`, `c_texts`), exported.
// Those on a table are document 01's thin calls over a lent slice of records: `lent_rows` copies the rows, and the covered call is made. A
// slice is a pointer and then a length. Contracts cite the definitions of those rooms and of `c_numbers`, which read the numbers that
// cross as the calls' own promises; the laws of `proofs/Bridge` tie what is told of a table to the lent records.
#![tactic(auto)]

mod clocked;
mod kept;
mod records;
mod sheets;
mod texts;

ghost use Rattle.std.specs.Prelude.{true, ◌≡◌, length};
ghost use Rattle.outcome.specs.Plan.{outcome};
ghost use Rattle.margin.specs.Margin.{margin_handed};
ghost use Rattle.proposal.specs.Proposal as checker;
ghost use Rattle.relief.specs.Relief.{relieved};
ghost use Rattle.wide_finder.specs.Wide as wide;
ghost use Rattle.c_numbers.specs.Numbers.{station_settings};
ghost use Rattle.c_tables.specs.Told.{told_margin, ToldMeets, ToldLooked, ToldProposal, ToldRelieved};

use c_numbers::{Station, ToldVerdict};
use c_tables::{Told, ToldMargin, ToldRelief};
use kinds::Task;
use wide_task::WideTask;

// The plain finder over lent records.
#[unsafe(no_mangle)]
pub extern "C" fn eelbasket_plain(
    rows: &[Task],
    station: Station,
    periods: &mut [u32],
    processors: &mut [u16],
) -> Told
    ensures { ToldMeets
        (outcome true (station_settings station) rows.now (length rows.now) periods.old processors.old)
        result periods.new processors.new }
{
    c_tables::plain_told(lent_rows::gather(rows), station, periods, processors)
}

// The quick finder over lent records, with its looks.
#[unsafe(no_mangle)]
pub extern "C" fn eelbasket_quick(
    rows: &[Task],
    station: Station,
    periods: &mut [u32],
    processors: &mut [u16],
) -> Told
    ensures { ToldLooked (station_settings station) rows.now (length rows.now) periods.old processors.old
        result periods.new processors.new }
{
    c_tables::quick_told(lent_rows::gather(rows), station, periods, processors)
}

// The margin over lent records, at any step.
#[unsafe(no_mangle)]
pub extern "C" fn eelbasket_margin(rows: &[Task], station: Station, step: u32) -> ToldMargin
    ensures { told_margin result ≡ margin_handed (station_settings station) rows.now (length rows.now) step }
{
    c_tables::margin_told(lent_rows::gather(rows), station, step)
}

// What would relieve lent records.
#[unsafe(no_mangle)]
pub extern "C" fn eelbasket_relief(
    rows: &[Task],
    station: Station,
    without: &mut [u32],
) -> ToldRelief
    ensures { ToldRelieved (relieved (station_settings station) rows.now (length rows.now) without.old)
        result without.new }
{
    c_tables::relief_told(lent_rows::gather(rows), station, without)
}

// The checker of a proposal over lent records, at any step.
#[unsafe(no_mangle)]
pub extern "C" fn eelbasket_check_proposal(
    rows: &[Task],
    station: Station,
    step: u32,
    proposal: &[u16],
    loads: &mut [u32],
) -> ToldVerdict
    ensures { ToldProposal
        (checker.outcome (station_settings station) rows.now (length rows.now) step proposal.now loads.old)
        result loads.new }
{
    c_tables::check_proposal_told(lent_rows::gather(rows), station, step, proposal, loads)
}

// The finder for tasks that need several cores, over lent records.
#[unsafe(no_mangle)]
pub extern "C" fn eelbasket_wide(
    rows: &[WideTask],
    m: u16,
    periods: &mut [u32],
    cores: &mut [u16],
) -> Told
    ensures { ToldMeets (wide.outcome m rows.now (length rows.now) periods.old cores.old)
        result periods.new cores.new }
{
    c_tables::wide_told(lent_rows::gather_wide(rows), m, periods, cores)
}
