// The names of tasks, kept beside their table, for people to read. They are tested and not promised; each call is proved to stay within what is lent.
#![tactic(auto)]

use kinds::Table;
use text::Page;

// How many bytes a name may have.
pub const LONGEST_NAME: usize = 20;

// A name for each task: its bytes, and zeros behind them, as no name has a 0.
#[derive(Clone, Copy)]
pub struct Names {
    names: [[u8; LONGEST_NAME]; Table::MOST_TASKS],
}

impl Names {
    // No task has a name.
    pub const NONE: Names = Names {
        names: [[0; LONGEST_NAME]; Table::MOST_TASKS],
    };

    // Keeps the name of a task, as far as there is room.
    pub fn keep(&mut self, task: usize, name: &[u8]) {
        if let Some(kept) = self.names.get_mut(task) {
            let n = name.len().min(LONGEST_NAME);
            kept[..n].copy_from_slice(&name[..n]);
        }
    }

    // The name of a task, which is empty where it has none.
    pub fn of(&self, task: usize) -> &[u8] {
        let Some(name) = self.names.get(task) else {
            return &[];
        };
        let end = name.iter().position(|byte| *byte == 0);
        &name[..end.unwrap_or(LONGEST_NAME)]
    }

    // How many columns the name of a task takes, or its number where it has none.
    pub fn columns(&self, task: usize) -> usize {
        let name = self.of(task);
        if name.is_empty() {
            return text::columns_of(task);
        }
        text::columns(name)
    }

    // Puts the name of a task, or its number where it has none.
    pub fn put(&self, page: &mut Page, task: usize) {
        let name = self.of(task);
        if name.is_empty() {
            write!(page, "{task}");
        } else {
            page.put(name);
        }
    }

    // Puts the same at the left of a column, and the number where the column does not hold the name.
    pub fn put_in(&self, page: &mut Page, task: usize, width: usize) {
        let name = self.of(task);
        let columns = text::columns(name);
        if name.is_empty() || width < columns {
            write!(page, "{task:<width$}");
            return;
        }
        let blank = width - columns;
        page.put(name);
        write!(page, "{:blank$}", "");
    }
}
