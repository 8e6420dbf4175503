// What people read of jobs that need several cores: their plan, or why they are refused. The text is tested and not promised.
ghost use Rattle.std.specs.Prelude.{◌≤◌, length};

use kinds::{Refusal, Settings, Table};
use refusal_words::{Line, WideBecause};
use std::fmt;
use task_names::Names;
use text::{Apart, Page, Stretch};
use wide_task::{WideTable, WideTask};

// Room for every plan: two lines for each of 32 jobs, and four besides.
pub(crate) const LONGEST: usize = 6_000;

// How many columns of a line are left for the record of a job, behind what is granted it.
const RECORD: usize = 30;

// Puts the period of a job, its cores and how far it is stretched.
fn put_granted(page: &mut Page, job: WideTask, period: u32, cores: u16) {
    let stretch = Stretch {
        period,
        shortest: job.tmin,
        longest: job.tmax,
        elasticity: job.e,
    };
    let period = Apart(u64::from(period));
    write!(page, " {period:13} {cores:5} {stretch:7}  ");
}

// The record of a job, as a text has it.
#[derive(Clone, Copy)]
struct Record(WideTask);

impl fmt::Display for Record {
    fn fmt<W: fmt::Write>(&self, f: &mut fmt::Formatter<W>) -> fmt::Result {
        let WideTask {
            c,
            l,
            tmin,
            tmax,
            e,
        } = self.0;
        write!(f, "{c},{l},{tmin},{tmax},{e}")
    }
}

// Puts the record of a job, on a line of its own where it is too long for this one.
fn put_record(page: &mut Page, job: WideTask) {
    let record = Record(job);
    if RECORD < text::columns_of(record) {
        write!(page, "\n    ");
    }
    writeln!(page, "{record}");
}

// Puts a line for each job, with what is granted it.
pub(crate) fn put_rows(
    page: &mut Page,
    table: WideTable,
    periods: &[u32; Table::MOST_TASKS],
    cores: &[u16; Table::MOST_TASKS],
    names: &Names,
) {
    let jobs = table.rows.iter().take(table.n).enumerate();
    for (((i, job), period), cores) in jobs.zip(periods).zip(cores) {
        names.put_in(page, i, task_names::LONGEST_NAME);
        put_granted(page, *job, *period, *cores);
        put_record(page, *job);
    }
}

// How many cores are granted; there are none past the last job.
fn used(cores: &[u16]) -> u32
    requires { length cores.now ≤ 32 }
{
    cores.iter().map(|cores| u32::from(*cores)).sum()
}

// Puts what stands above those lines.
pub(crate) fn put_head(page: &mut Page, step: u32, cores: &[u16; Table::MOST_TASKS], m: u16) {
    let used = used(cores);
    writeln!(
        page,
        "the jobs fit at step {}: {used} of {m} cores are used\n\n\
            job                         period cores stretch  C,L,Tmin,Tmax,E",
        Apart(u64::from(step))
    );
}

// How many cores are enough for a table that does not fit so many.
fn enough(table: WideTable, m: u16) -> Option<u16> {
    let mut more = m.saturating_add(1)..=Settings::MOST_PROCESSORS;
    more.find(|m| wide_finder::decide(table, *m, Table::MOST_TASKS).is_ok())
}

// Puts a refusal of the finder in words, and how many cores would be enough for a table that fits at no step.
pub(crate) fn put_refused(page: &mut Page, refusal: Refusal, table: WideTable, m: u16) {
    let because = |job| reason::wide_reason_of(job).map(WideBecause);
    writeln!(page, "{}", Line::of(refusal, &table.rows, because));
    if refusal != Refusal::NoStepPasses {
        return;
    }
    match enough(table, m) {
        Some(cores) => writeln!(page, "{cores} cores are enough"),
        None => writeln!(page, "{} cores are not enough", Settings::MOST_PROCESSORS),
    }
}

// Puts the refusal of a text whose line at a place, from 0, cannot be taken.
pub(crate) fn put_bad_line(page: &mut Page, place: usize) {
    writeln!(
        page,
        "refused 16 at {place}: line {place} (from 0) is not five numbers C,L,Tmin,Tmax,E"
    );
}
