// Ask 14: whether the results of a filled sheet are those that we would give, as a verdict and as the program's line. Contracts cite
// `specs/Checked` and `specs/Told`.
#![tactic(auto)]

ghost use Rattle.std.specs.Prelude.{◌≡◌};
ghost use Rattle.kinds.specs.Answer.{handed_verdict};
ghost use Rattle.refusal_line.specs.Fronts.{Fronts, FrontsOrRefuses};
ghost use Rattle.filled_sheet.specs.Checked.{first_unlike, checked_by, checked};
ghost use Rattle.filled_sheet.specs.Told.{told};

use fill::SheetPlan;
use kinds::{Refusal, Results, Sheet, Table};

// The first of n results that differs from the one that is due.
fn first_unlike(results: Results, due: Results, n: usize) -> Option<usize>
    ensures { result ≡ first_unlike results.rows due.rows n }
{
    // By index, since the index is the answer and reads both arrays: `zip`, `take` and `position` would say it no plainer.
    for i in 0..n.min(Table::MOST_TASKS) {
        if results.rows[i] != due.rows[i] {
            return Some(i);
        }
    }
    None
}

// Compares the results of a sheet with those of its plan; where the plan is refused, so is the sheet.
pub fn check_plan(x: Sheet, plan: SheetPlan) -> Result<(), Refusal>
    ensures { handed_verdict result ≡ checked_by x plan }
{
    plan.answer?;
    if x.results.n < x.table.n {
        return Err(Refusal::NoResults);
    }
    match first_unlike(x.results, plan.sheet.results, x.table.n) {
        Some(i) => Err(Refusal::WrongResult(i)),
        None => Ok(()),
    }
}

// Accepts a sheet whose every task has the result that the plain finder gives; it lends nothing out.
pub fn check(bytes: &[u8]) -> Result<(), Refusal>
    ensures { handed_verdict result ≡ checked bytes.now }
{
    let reading = sheet::read(bytes);
    reading.verdict?;
    check_plan(reading.sheet, fill::fill_sheet(reading.sheet))
}

// Writes `accepted` and a newline for a sheet that is accepted, and nothing for another; returns how many bytes.
fn tell_accepted(input: &[u8], out: &mut [u8; sheet::LONGEST]) -> Result<usize, Refusal>
    ensures { FrontsOrRefuses (told input.now) out.old result out.new }
{
    check(input)?;
    Ok(refusal_line::put_bytes(out, 0, b"accepted\n"))
}

// Writes what the program says of what it read, `accepted` or `refused N at P` and a newline; returns how many bytes.
#[tactic(auto, using(refusal_line::proofs::Fronts::line_written))]
pub fn tell(input: &[u8], out: &mut [u8; sheet::LONGEST]) -> usize
    ensures { Fronts (told input.now) out.old result out.new }
{
    refusal_line::count_or_line(tell_accepted(input, out), out)
}
