// The work of the office's programs on slices: `enter` makes an unfilled station sheet of a text, `take_out` writes the text of a sheet's
// table; each writes the line of a refusal instead. Contracts cite `specs/Written`.
#![tactic(auto)]

ghost use Rattle.std.specs.Prelude.{◌≡◌, ◌≤◌, length};
ghost use Rattle.kinds.specs.Limits.{most_tasks};
ghost use Rattle.sheet.specs.Sections.{longest_sheet};
ghost use Rattle.refusal_line.specs.Fronts.{Fronts, FrontsOrRefuses};
ghost use Rattle.writer.specs.Encode.{encode};
ghost use Rattle.office_sheet.specs.Written.{setting_of, sheet_with, entered, taken_out};

use kinds::{Granted, Policy, Refusal, Results, Settings, Sheet, Table};

// The setting whose number is an argument's whole text, if a field of 2 bytes holds it.
pub fn setting_of(argument: &[u8]) -> Option<u16>
    ensures { result ≡ setting_of argument.now }
{
    let (number, _) = numeral::numeral_in(argument)?;
    u16::try_from(number).ok()
}

// Writes the sheet of a table with these two settings and no results, which is never refused; returns how many bytes.
fn put_unfilled(policy: u16, m: u16, table: Table, out: &mut [u8]) -> Result<usize, Refusal>
    requires { (table.n ≤ most_tasks) × (longest_sheet ≤ length out.old) }
    ensures { FrontsOrRefuses (encode (sheet_with policy m table)) out.old result out.new }
{
    let settings = Settings::new(Policy::from(policy), m, 0, 1, Settings::SHARE_EDITION);
    let results = Results {
        rows: [Granted::NONE; Table::MOST_TASKS],
        n: 0,
    };
    let x = Sheet {
        count: Settings::FEWEST,
        settings,
        table,
        results,
    };
    writer::write(x, out)
}

// The sheet of a text, with the settings that two arguments name, or the first refusal, which writes nothing.
fn enter_text(
    policy: &[u8],
    processors: &[u8],
    text: &[u8],
    out: &mut [u8; sheet::LONGEST],
) -> Result<usize, Refusal>
    ensures { FrontsOrRefuses (entered policy.now processors.now text.now) out.old result out.new }
{
    let p = setting_of(policy).ok_or(Refusal::NoSuchPolicy)?;
    let m = setting_of(processors).ok_or(Refusal::Misset)?;
    let table = office::read(text, Table::MOST_TASKS)?;
    put_unfilled(p, m, table, out)
}

// The same, with the line of a refusal; returns how many bytes.
#[tactic(auto, using(refusal_line::proofs::Fronts::line_written))]
pub fn enter(policy: &[u8], processors: &[u8], text: &[u8], out: &mut [u8; sheet::LONGEST]) -> usize
    ensures { Fronts (entered policy.now processors.now text.now) out.old result out.new }
{
    refusal_line::count_or_line(enter_text(policy, processors, text, out), out)
}

// The text of a sheet's table, filled or not, or the reader's refusal, which writes nothing.
fn take_text(bytes: &[u8], out: &mut [u8; office::LONGEST]) -> Result<usize, Refusal>
    ensures { FrontsOrRefuses (taken_out bytes.now) out.old result out.new }
{
    let reading = sheet::read(bytes);
    reading.verdict?;
    office::export(reading.sheet.table, out)
}

// The same, with the line of a refusal; returns how many bytes.
#[tactic(auto, using(refusal_line::proofs::Fronts::line_written))]
pub fn take_out(bytes: &[u8], out: &mut [u8; office::LONGEST]) -> usize
    ensures { Fronts (taken_out bytes.now) out.old result out.new }
{
    refusal_line::count_or_line(take_text(bytes, out), out)
}
