// Task tables as the office keeps them: comma-separated text, a line for each task. `import` and `export` work on a table by value; the
// calls over lent rows are those of `eelbasket`. Contracts cite `specs/Text`, `specs/Reading` and `specs/Carrying`; the last laws of
// `proofs/RoundTrip` are the two round trips.
#![tactic(auto)]

ghost use Rattle.std.specs.Prelude.{◌≡◌, ◌+◌, ◌≤◌, length};
ghost use Rattle.kinds.specs.Limits.{most_tasks};
ghost use Rattle.field.specs.Handover.{Put};
ghost use Rattle.numeral.specs.Handover.{Sized};
ghost use Rattle.office.specs.Text.{Fits, number_then, line_of, text_of, longest_line, longest_text};
ghost use Rattle.office.specs.Reading.{line_at};
ghost use Rattle.office.specs.Carrying.{Reads, Exports};
ghost use Rattle.office.specs.Handover.{imported};

use kinds::{Refusal, Table, Task};

const COMMA: u8 = b',';

const NEWLINE: u8 = b'\n';

// How many digits a number of a task has at most, and how many bytes its line: four numbers, three commas and a newline.
const DIGITS: usize = 10;

const LINE: usize = 4 * DIGITS + 3 + 1;

// How many bytes the longest text of a table has.
pub const LONGEST: usize = Table::MOST_TASKS * LINE;

// What an import by value answers, with the table. It is no Result: a refused import is promised to hand back the table of no tasks (`Reads`).
#[derive(Clone, Copy)]
pub struct Imported {
    pub answer: Result<usize, Refusal>,
    pub table: Table,
}

// Every task by value fits a text: each of its numbers is one that a text may hold.
pub fn fits(task: Task)
    ensures { Fits task }
{}

// The task of the line at a place, and the place after it.
#[tactic(auto, unfolding(crate::specs::Reading::line_at))]
pub fn line_at(s: &[u8], at: usize) -> Option<(Task, usize)>
    ensures { result ≡ line_at s.now at }
{
    let (c, at_tmin) = numeral::numeral_at(s, at, COMMA)?;
    let (tmin, at_tmax) = numeral::numeral_at(s, at_tmin, COMMA)?;
    let (tmax, at_e) = numeral::numeral_at(s, at_tmax, COMMA)?;
    let (e, next) = numeral::numeral_at(s, at_e, NEWLINE)?;
    Some((Task::new(c, tmin, tmax, e), next))
}

// The table of a text, for an output with room for so many rows. It goes from the left, line by line, and judges no record.
pub fn read(text: &[u8], room: usize) -> Result<Table, Refusal>
    ensures { Reads text.now room (imported result) }
{
    let mut rows = [Task::NONE; Table::MOST_TASKS];
    let mut at: usize = 0;
    let mut n: usize = 0;
    // The end of the text ends this walk, and not that of the rows, so n counts the lines.
    while at < text.len() {
        if Table::MOST_TASKS <= n {
            return Err(Refusal::TooManyTasks(Table::MOST_TASKS));
        }
        let (row, next) = line_at(text, at).ok_or(Refusal::BadLine(n))?;
        rows[n] = row;
        at = next;
        n += 1;
    }
    if room < n {
        return Err(Refusal::OutputTooShort(n));
    }
    Ok(Table::new(rows, n))
}

// The same, as an import by value answers: a refused one has a table too.
pub fn import(text: &[u8], room: usize) -> Imported
    ensures { Reads text.now room result }
{
    match read(text, room) {
        Ok(table) => Imported {
            answer: Ok(table.n),
            table,
        },
        Err(refusal) => Imported {
            answer: Err(refusal),
            table: Table::new([Task::NONE; Table::MOST_TASKS], 0),
        },
    }
}

// How many bytes a task's line has.
fn line_width(task: Task) -> usize
    ensures { Sized (line_of task) longest_line result }
{
    numeral::width(task.c)
        + numeral::width(task.tmin)
        + numeral::width(task.tmax)
        + numeral::width(task.e)
        + 4
}

// How many bytes the lines of some rows have.
fn text_width(rows: &[Task]) -> usize
    requires { length rows.now ≤ most_tasks }
    ensures { Sized (text_of rows.now) longest_text result }
{
    let mut width: usize = 0;
    for row in rows {
        width += line_width(*row);
    }
    width
}

// Puts a number and the byte that ends it; returns the place after them.
fn put_number(out: &mut [u8], at: usize, v: u32, end: u8) -> usize
    requires { at + length (number_then v end) ≤ length out.old }
    ensures { Put out.old at (length (number_then v end)) (number_then v end) result out.new }
{
    let next = numeral::put_decimal(out, at, u64::from(v));
    out[next] = end;
    next + 1
}

// Puts a task's line; returns the place after it.
fn put_line(out: &mut [u8], at: usize, task: Task) -> usize
    requires { at + length (line_of task) ≤ length out.old }
    ensures { Put out.old at (length (line_of task)) (line_of task) result out.new }
{
    let at_tmin = put_number(out, at, task.c, COMMA);
    let at_tmax = put_number(out, at_tmin, task.tmin, COMMA);
    let at_e = put_number(out, at_tmax, task.tmax, COMMA);
    put_number(out, at_e, task.e, NEWLINE)
}

// Puts the lines of some rows at the front; returns their length.
fn put_text(out: &mut [u8], rows: &[Task]) -> usize
    requires { length (text_of rows.now) ≤ length out.old }
    ensures { Put out.old 0 (length (text_of rows.now)) (text_of rows.now) result out.new }
{
    let mut at: usize = 0;
    for row in rows {
        at = put_line(out, at, *row);
    }
    at
}

// The text of a table, into a lent output: exactly that text, and nothing past it.
pub fn export(table: Table, out: &mut [u8]) -> Result<usize, Refusal>
    ensures { Exports table.rows table.n out.old result out.new }
{
    let rows = table
        .rows
        .get(..table.n)
        .ok_or(Refusal::TooManyTasks(table.n))?;
    let needed = text_width(rows);
    if out.len() < needed {
        return Err(Refusal::OutputTooShort(needed));
    }
    Ok(put_text(out, rows))
}

// The longest text that definitions name is the one that the code names.
pub fn limits()
    ensures { LONGEST ≡ longest_text }
{}
