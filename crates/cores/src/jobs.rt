// The table of jobs that a text has, as a survey of its lines found them.
use kinds::Table;
use loosen::fields::Reason;
use loosen::line::Line;
use loosen::survey::Survey;
use wide_task::{WideTable, WideTask};

// A number of a job that takes 32 bits.
fn short_number(line: &Line, i: usize) -> Result<u32, Reason> {
    u32::try_from(line.number(i)?).map_err(|_| Reason::TooLarge)
}

// The job of a line.
fn job_of(line: &Line) -> Result<WideTask, Reason> {
    Ok(WideTask {
        c: line.number(0)?,
        l: short_number(line, 1)?,
        tmin: short_number(line, 2)?,
        tmax: short_number(line, 3)?,
        e: short_number(line, 4)?,
    })
}

// The table of the jobs; where there are more than there is room for, their count stays as it is, and is refused.
pub(crate) fn table_of(survey: &Survey) -> WideTable {
    let mut rows = [WideTask::NONE; Table::MOST_TASKS];
    for (row, line) in rows.iter_mut().zip(survey.tasks()) {
        *row = job_of(line).unwrap_or(WideTask::NONE);
    }
    let n = survey.tasks().len().saturating_add(survey.untaken);
    WideTable { rows, n }
}
