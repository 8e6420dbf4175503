// What the fields of a case stand for: its table and its settings. Field 0 is empty, and field 1 has what is run.
use crate::line;
use crate::line::FIELDS;
use kinds::{Policy, Settings, Table, Task};
use wide_task::{WideTable, WideTask};

// How many entries of a proposal a case has room for.
pub(crate) const ENTRIES: usize = 7;

// The records of a table's line, which start at field 1 and end before one whose C is 0; the last of them stands for all that follow.
fn rows_of(fields: [u32; FIELDS]) -> [Task; Table::MOST_TASKS] {
    let mut rows = [Task::NONE; Table::MOST_TASKS];
    let mut at: usize = 1;
    for row in &mut rows {
        *row = match fields.get(at..) {
            Some([c, tmin, tmax, e, ..]) => Task::new(*c, *tmin, *tmax, *e),
            _ => Task::NONE,
        };
        let next = at.saturating_add(4);
        if fields.get(next).is_some_and(|c| *c != 0) {
            at = next;
        }
    }
    rows
}

// The table of a case: field 2 has the letter of the line with its records, field 3 how many tasks count.
pub(crate) fn table_of(text: &[u8], fields: [u32; FIELDS]) -> Table {
    let rows = rows_of(line::fields_of(text, line::letter(fields[2])));
    Table {
        rows,
        n: fields[3] as usize,
    }
}

// A table of jobs that need several cores: field 2 has how many count, and the record that they share starts at field 4.
pub(crate) fn wide_table_of(fields: [u32; FIELDS]) -> WideTable {
    let job = WideTask {
        c: u64::from(fields[4]) * u64::from(fields[5]),
        l: fields[6],
        tmin: fields[7],
        tmax: fields[8],
        e: fields[9],
    };
    WideTable {
        rows: [job; Table::MOST_TASKS],
        n: fields[2] as usize,
    }
}

// A number from 10 on is the further choice that holds what is over 10.
fn policy_of(number: u16) -> Policy {
    match number.checked_sub(10) {
        Some(further) => Policy::Further(further),
        None => Policy::from(number),
    }
}

// The settings of a case, from field 4 on: policy, m, notch and edition. A swap costs nothing.
pub(crate) fn settings_of(fields: [u32; FIELDS]) -> Settings {
    Settings {
        policy: policy_of(line::short(fields[4])),
        m: line::short(fields[5]),
        swap: 0,
        notch: line::short(fields[6]),
        edition: line::short(fields[7]),
    }
}
