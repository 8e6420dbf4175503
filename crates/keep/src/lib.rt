// Ask 6: tasks join and leave a table, beside which the index by saturation step is kept. The promises of `join` and `leave` are `joined`
// and `left` of `specs/Keep`.
#![tactic(auto)]

ghost use Rattle.std.specs.Prelude.{◌≡◌, ◌+◌, ◌≤◌, ◌<◌};
ghost use Rattle.ground.specs.Laid.{padded_to};
ghost use Rattle.kinds.specs.Limits.{most_tasks};
ghost use Rattle.kinds.specs.Task.{no_task, table};
ghost use Rattle.kinds.specs.Answer.{accepted, refused};
ghost use Rattle.keep.specs.Keep.{kept, left_row, joined_rows, joined, left, handed_change};

use kinds::{Index, Refusal, Table, Task};
use springs::Springs;

// A table, and beside it the index of its tasks. It is laid out as C lays it out.
#[repr(C)]
#[derive(Clone, Copy)]
pub struct Kept {
    pub table: Table,
    pub index: Index,
}

// The answer to a change, and what is kept after it: a refused change hands back what was kept, so that it is no `Result`.
#[derive(Clone, Copy)]
pub struct Changed {
    pub answer: Result<(), Refusal>,
    pub kept: Kept,
}

// A refused change, which alters nothing.
fn refuse(kept: Kept, refusal: Refusal) -> Changed
    ensures { handed_change result ≡ refused kept refusal }
{
    Changed {
        answer: Err(refusal),
        kept,
    }
}

// An accepted change: the table, and the index worked out afresh.
fn accept(table: Table, index: Index) -> Changed
    ensures { handed_change result ≡ accepted (kept table index) }
{
    Changed {
        answer: Ok(()),
        kept: Kept { table, index },
    }
}

// The first n records of a table without the one at a place, and zeros past them.
pub fn without(old: Table, place: usize, n: usize) -> Table
    requires { (n ≤ most_tasks) × (place < n → n < most_tasks) }
    ensures { result ≡ table (padded_to no_task most_tasks (left_row old.rows place) n) n }
{
    let mut rows = [Task::NONE; Table::MOST_TASKS];
    // Over the numbers: past the place the row after the gone one is read.
    for i in 0..n {
        let from = order::left_from(place, i);
        rows[i] = old.rows[from];
    }
    Table { rows, n }
}

// A table with one task more at its end, and zeros past it.
fn with(old: Table, task: Task) -> Table
    requires { old.n < most_tasks }
    ensures { result ≡ table (joined_rows old.rows old.n task) (old.n + 1) }
{
    let n = old.n;
    let mut after = without(old, n, n);
    after.rows[n] = task;
    after.n = n + 1;
    after
}

// Joins a task at the end of a table, where a swap costs so much and a notch is so wide.
pub fn join(kept: Kept, swap: u16, notch: u16, task: Task) -> Changed
    ensures { handed_change result ≡ joined swap notch kept task }
{
    let old = kept.table;
    let n = old.n;
    if notch == 0 {
        return refuse(kept, Refusal::Misset);
    }
    if Table::MOST_TASKS <= n {
        return refuse(kept, Refusal::TooManyTasks(n));
    }
    let after = with(old, task);
    let mut springs = Springs::new(notch);
    if let Err(bad) = springs.take_in(after, swap, notch) {
        return refuse(kept, Refusal::BadRecord(bad));
    }
    let index = order::index_of(&springs, n + 1, n + 1);
    accept(after, index)
}

// Lets the task at a place leave a table; later records move down by one.
pub fn leave(kept: Kept, swap: u16, notch: u16, place: usize) -> Changed
    ensures { handed_change result ≡ left swap notch kept place }
{
    let old = kept.table;
    let n = old.n;
    if notch == 0 {
        return refuse(kept, Refusal::Misset);
    }
    if Table::MOST_TASKS < n {
        return refuse(kept, Refusal::TooManyTasks(n));
    }
    let mut springs = Springs::new(notch);
    if let Err(bad) = springs.take_in(old, swap, notch) {
        return refuse(kept, Refusal::BadRecord(bad));
    }
    if n <= place {
        return refuse(kept, Refusal::NoSuchRecord(place));
    }
    let index = order::index_of(&springs, place, n - 1);
    let rest = without(old, place, n - 1);
    accept(rest, index)
}
