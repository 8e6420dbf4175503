// The rows of a sheet's sections: a setting, a task record, a result. Contracts cite `specs/Rows`.
ghost use Rattle.std.specs.Prelude.{◌≡◌, ◌+◌, ◌*◌, ◌≤◌, ℕ, List, length};
ghost use Rattle.field.specs.Number.{u16_at, bytes_of};
ghost use Rattle.field.specs.Field.{field_by};
ghost use Rattle.field.specs.Handover.{Put};
ghost use Rattle.sheet.specs.Sections.{setting_size, task_size, granted_size};
ghost use Rattle.sheet.specs.Rows.{task_at, granted_at, task_bytes, granted_bytes, rows_bytes, RowsRead};

use kinds::{Granted, Task};

// A kind of row: how many bytes it takes, the row that stands at a place, and the bytes of a row.
pub trait Row: Copy {
    ghost size: { ℕ };

    ghost row_at: { List ℕ → ℕ → Self };

    ghost bytes: { Self → List ℕ };

    // The row at a place, and the place after it.
    fn read(s: &[u8], at: usize) -> Option<(Self, usize)>
        ensures { result ≡ field_by size row_at s.now at };

    // Stores the row at a place, and nothing else; returns the place after it.
    fn put(self, out: &mut [u8], at: usize) -> usize
        requires { at + size ≤ length out.old }
        ensures { Put out.old at size (bytes self) result out.new };
}

// A setting.
impl Row for u16 {
    ghost size = { setting_size };

    ghost row_at = { u16_at };

    ghost bytes = { bytes_of setting_size };

    fn read(s: &[u8], at: usize) -> Option<(u16, usize)> {
        field::read(s, at)
    }

    fn put(self, out: &mut [u8], at: usize) -> usize {
        field::put(out, at, self)
    }
}

impl Row for Task {
    ghost size = { task_size };

    ghost row_at = { task_at };

    ghost bytes = { task_bytes };

    #[tactic(auto, unfolding(field::specs::Field::field_by))]
    fn read(s: &[u8], at: usize) -> Option<(Task, usize)> {
        let (c, at_tmin) = field::read(s, at)?;
        let (tmin, at_tmax) = field::read(s, at_tmin)?;
        let (tmax, at_e) = field::read(s, at_tmax)?;
        let (e, next) = field::read(s, at_e)?;
        Some((Task { c, tmin, tmax, e }, next))
    }

    fn put(self, out: &mut [u8], at: usize) -> usize {
        let at_tmin = field::put(out, at, self.c);
        let at_tmax = field::put(out, at_tmin, self.tmin);
        let at_e = field::put(out, at_tmax, self.tmax);
        field::put(out, at_e, self.e)
    }
}

impl Row for Granted {
    ghost size = { granted_size };

    ghost row_at = { granted_at };

    ghost bytes = { granted_bytes };

    #[tactic(auto, unfolding(field::specs::Field::field_by))]
    fn read(s: &[u8], at: usize) -> Option<(Granted, usize)> {
        let (period, at_processor) = field::read(s, at)?;
        let (processor, next) = field::read(s, at_processor)?;
        Some((Granted { period, processor }, next))
    }

    fn put(self, out: &mut [u8], at: usize) -> usize {
        let at_processor = field::put(out, at, self.period);
        field::put(out, at_processor, self.processor)
    }
}

// Reads the rows of a section from a place on; returns the place after them. The first row that is not there ends them.
pub fn read_section<R: Row>(s: &[u8], from: usize, rows: &mut [R]) -> Option<usize>
    requires { from ≤ length s.now }
    ensures { RowsRead R.size R.row_at s.now from (length rows.old) rows.new result }
{
    let mut at = from;
    for row in rows.iter_mut() {
        (*row, at) = R::read(s, at)?;
    }
    Some(at)
}

// Stores the rows of a section from a place on, and nothing else; returns the place after them.
pub fn put_section<R: Row>(out: &mut [u8], from: usize, rows: &[R]) -> usize
    requires { from + R.size * length rows.now ≤ length out.old }
    ensures { (none : R) → Put out.old from (R.size * length rows.now) (rows_bytes R.bytes none rows.now (length rows.now)) result out.new }
{
    let mut at = from;
    for row in rows {
        at = row.put(out, at);
    }
    at
}
