// Joins and leaves of a kept table, exported. Contracts cite the definitions of `c_kept`.
ghost use Rattle.std.specs.Prelude.{◌≡◌};
ghost use Rattle.keep.specs.Keep.{joined, left};
ghost use Rattle.c_kept.specs.Kept.{told_change};

use c_kept::ToldChange;
use keep::Kept;
use kinds::Task;

// Joins a task at the end of a table, where a swap costs w and a notch is q.
#[unsafe(no_mangle)]
pub extern "C" fn eelbasket_join(kept: Kept, w: u16, q: u16, task: Task) -> ToldChange
    ensures { told_change result ≡ joined w q kept task }
{
    c_kept::join_told(kept, w, q, task)
}

// Lets the task at a place leave a table.
#[unsafe(no_mangle)]
pub extern "C" fn eelbasket_leave(kept: Kept, w: u16, q: u16, place: usize) -> ToldChange
    ensures { told_change result ≡ left w q kept place }
{
    c_kept::leave_told(kept, w, q, place)
}
