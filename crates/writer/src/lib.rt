// Writing a station sheet into a lent buffer: rows, sections, the sheet. Callers use `write`. Contracts cite `specs/Encode` and
// `specs/Writing`.
#![tactic(auto)]

ghost use Rattle.std.specs.Prelude.{◌≤◌, length};
ghost use Rattle.kinds.specs.Limits.{most_settings, most_tasks};
ghost use Rattle.field.specs.Handover.{Put};
ghost use Rattle.sheet.specs.Sections.{tasks_place};
ghost use Rattle.writer.specs.Encode.{settings_bytes, encode, length_of};
ghost use Rattle.writer.specs.Writing.{Writes};
ghost use Rattle.writer.specs.Canonical.{SheetStorable};

use kinds::{Refusal, Settings, Sheet, Table};
use sheet::row;

// Stores the settings section at the front, without the numbers past the count; returns the place after it.
fn put_settings(out: &mut [u8], count: usize, settings: Settings) -> usize
    requires { (count ≤ most_settings) × (tasks_place count ≤ length out.old) }
    ensures { Put out.old 0 (tasks_place count) (settings_bytes count settings) result out.new }
{
    let numbers = <[u16; Settings::MOST]>::from(settings);
    let first = field::put(out, 0, count as u16);
    row::put_section(out, first, &numbers[..count])
}

// Stores a whole sheet at the front; returns its length.
fn put_sheet(out: &mut [u8], x: Sheet) -> usize
    requires { (x.count ≤ most_settings) × ((x.table.n ≤ most_tasks) × ((x.results.n ≤ most_tasks) × (length_of x ≤ length out.old))) }
    ensures { Put out.old 0 (length_of x) (encode x) result out.new }
{
    let Sheet {
        count,
        settings,
        table,
        results,
    } = x;
    let at_count = put_settings(out, count, settings);
    let at_tasks = field::put(out, at_count, table.n as u16);
    let at_results = row::put_section(out, at_tasks, &table.rows[..table.n]);
    let at_granted = field::put(out, at_results, results.n as u16);
    row::put_section(out, at_granted, &results.rows[..results.n])
}

// Every sheet by value can be stored: its numbers fit their fields, and its tables have room for the most tasks.
pub fn storable(x: Sheet)
    ensures { SheetStorable x }
{
    let settings = x.settings;
    <[u16; Settings::MOST]>::from(settings);
}

// Writes a station sheet into a lent buffer.
#[tactic(auto, unfolding(crate::specs::Writing::write_sheet, crate::specs::Writing::after_write))]
pub fn write(x: Sheet, out: &mut [u8]) -> Result<usize, Refusal>
    ensures { Writes x out.old result out.new }
{
    let n = x.table.n;
    let r = x.results.n;
    if !sheet::settings_fit(x.count) {
        return Err(Refusal::WrongSettingsCount);
    }
    if Table::MOST_TASKS < n {
        return Err(Refusal::TooManyTasks(n));
    }
    if !sheet::results_fit(r, n) {
        return Err(Refusal::WrongResultCount(0));
    }
    let needed = sheet::end_place(x.count, n, r);
    if out.len() < needed {
        return Err(Refusal::OutputTooShort(needed));
    }
    Ok(put_sheet(out, x))
}
