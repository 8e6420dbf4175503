// Between lent task records and a table by value: `gather` and `gather_wide` copy lent rows into a table, `table_of` of `kinds` and of
// `wide_task`, and `scatter` copies a table's rows back. `eelbasket`'s calls stand on them.
#![tactic(auto)]

ghost use Rattle.std.specs.Prelude.{◌≡◌, ◌≤◌, length};
ghost use Rattle.ground.specs.Laid.{over, laid};
ghost use Rattle.kinds.specs.Limits.{most_tasks};
ghost use Rattle.kinds.specs.Task.{at, table_of};
ghost use Rattle.wide_task.specs.WideTask as wide;

use kinds::{Table, Task};
use wide_task::{WideTable, WideTask};

// Puts as many of these rows as a table takes over its places.
fn place<T: Copy>(rows: &[T], places: &mut [T; Table::MOST_TASKS])
    ensures { places.new ≡ laid rows.now places.old }
{
    let kept = rows.len().min(Table::MOST_TASKS);
    places[..kept].copy_from_slice(&rows[..kept]);
}

// The table of the lent rows. Its count is theirs, also where there are more than it takes, so that the core can refuse them.
pub fn gather(rows: &[Task]) -> Table
    ensures { result ≡ table_of rows.now }
{
    let mut table = Table::new([Task::NONE; Table::MOST_TASKS], rows.len());
    place(rows, &mut table.rows);
    table
}

// The same of tasks that need several cores.
pub fn gather_wide(rows: &[WideTask]) -> WideTable
    ensures { result ≡ wide.table_of rows.now }
{
    let mut table = WideTable {
        rows: [WideTask::NONE; Table::MOST_TASKS],
        n: rows.len(),
    };
    place(rows, &mut table.rows);
    table
}

// The rows of a table that count, into the front of a lent slice, and nothing past them.
pub fn scatter(table: Table, out: &mut [Task])
    requires { (table.n ≤ most_tasks) × (table.n ≤ length out.old) }
    ensures { out.new ≡ over out.old (at table.rows) table.n }
{
    out[..table.n].copy_from_slice(&table.rows[..table.n]);
}
