// Joins and leaves in numbers, since an enum does not cross to C: the table and the index beside it cross by value, both ways. Contracts cite
// `specs/Kept`.
#![tactic(auto)]

ghost use Rattle.std.specs.Prelude.{◌≡◌};
ghost use Rattle.keep.specs.Keep.{joined, left, handed_change};
ghost use Rattle.c_kept.specs.Kept.{told_change};

use c_numbers::ToldVerdict;
use keep::{Changed, Kept};
use kinds::Task;

// Number and place, and what is kept after the change: what was handed in where it is refused.
#[repr(C)]
#[derive(Clone, Copy)]
pub struct ToldChange {
    pub number: u32,
    pub place: usize,
    pub kept: Kept,
}

// A change in numbers.
impl From<Changed> for ToldChange {
    ghost from_gives = { λ changed told. told_change told ≡ handed_change changed };

    fn from(changed: Changed) -> ToldChange {
        let told = ToldVerdict::from(changed.answer);
        ToldChange {
            number: told.number,
            place: told.place,
            kept: changed.kept,
        }
    }
}

// Joins a task at the end of a table, where a swap costs w and a notch is q.
pub fn join_told(kept: Kept, w: u16, q: u16, task: Task) -> ToldChange
    ensures { told_change result ≡ joined w q kept task }
{
    keep::join(kept, w, q, task).into()
}

// Lets the task at a place leave a table.
pub fn leave_told(kept: Kept, w: u16, q: u16, place: usize) -> ToldChange
    ensures { told_change result ≡ left w q kept place }
{
    keep::leave(kept, w, q, place).into()
}
