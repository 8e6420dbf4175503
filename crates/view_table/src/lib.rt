// The settings of a station and a line for each of its tasks, for people to read: its name or number; in a plan its period, how far that is
// stretched, its processor and its share; and its record. The columns are as wide as what stands in them. The text is tested and not promised.
#![tactic(auto)]

use kinds::{Granted, Policy, Settings, Sheet, Table, Task};
use std::fmt;
use task_names::Names;
use text::{Apart, Page, Percent, Stretch};

// The numbers that columns of their own hold: the period, C, Tmin, Tmax and E.
const NUMBERS: usize = 5;

// How many columns a line has at most.
const LINE: usize = 80;

// The name of a policy.
#[derive(Clone, Copy)]
struct Named(Policy);

impl fmt::Display for Named {
    fn fmt<W: fmt::Write>(&self, f: &mut fmt::Formatter<W>) -> fmt::Result {
        let name = match self.0.meant() {
            Policy::Pooled => "pooled",
            Policy::GlobalEdf => "global EDF",
            Policy::GlobalRm => "global RM (withdrawn)",
            Policy::FirstFit => "partitioned EDF, first fit",
            Policy::OneCoreRm => "rate monotonic on one core",
            Policy::Further(_) => "which there is not",
        };
        write!(f, "{name}")
    }
}

// The settings, in two lines.
pub fn put_settings(page: &mut Page, settings: Settings) {
    let policy = settings.policy;
    writeln!(page, "policy {}: {}", u16::from(policy), Named(policy));
    let Settings {
        m,
        swap,
        notch,
        edition,
        ..
    } = settings;
    writeln!(
        page,
        "processors {m}, w {swap}, q {notch}, edition {edition}"
    );
}

// A number, its thousands set apart or not.
#[derive(Clone, Copy)]
struct Number {
    value: u32,
    apart: bool,
}

impl fmt::Display for Number {
    fn fmt<W: fmt::Write>(&self, f: &mut fmt::Formatter<W>) -> fmt::Result {
        if self.apart {
            return fmt::Display::fmt(&Apart(u64::from(self.value)), f);
        }
        fmt::Display::fmt(&self.value, f)
    }
}

// What stands in the line of a task beside its name.
#[derive(Clone, Copy)]
struct Row {
    task: Task,
    granted: Granted,
    share: u64,
}

impl Row {
    fn numbers(self) -> [u32; NUMBERS] {
        let task = self.task;
        [self.granted.period, task.c, task.tmin, task.tmax, task.e]
    }

    fn stretch(self) -> Stretch {
        Stretch {
            period: self.granted.period,
            shortest: self.task.tmin,
            longest: self.task.tmax,
            elasticity: self.task.e,
        }
    }
}

// How the lines are laid out: the width of the names and of those numbers, whether thousands are set apart, and what is left out.
#[derive(Clone, Copy)]
struct Layout {
    name: usize,
    numbers: [usize; NUMBERS],
    apart: bool,
    planned: bool,
    placed: bool,
}

// Raises the largest numbers of the columns to those of a line.
fn raise(largest: &mut [u32; NUMBERS], numbers: [u32; NUMBERS]) {
    for (most, value) in largest.iter_mut().zip(numbers) {
        *most = (*most).max(value);
    }
}

// How wide the columns of a sheet's numbers are, their titles among them: the largest number of a column is its widest.
fn widths_of(x: Sheet, apart: bool) -> [usize; NUMBERS] {
    let mut largest = [0; NUMBERS];
    for (task, granted) in x.table.rows.iter().zip(&x.results.rows).take(x.table.n) {
        let row = Row {
            task: *task,
            granted: *granted,
            share: 0,
        };
        raise(&mut largest, row.numbers());
    }
    let mut widths = largest.map(|value| text::columns_of(Number { value, apart }).max(4));
    widths[0] = widths[0].max(6);
    widths
}

impl Layout {
    // The layout for so wide names, with the thousands set apart or not.
    fn laid_out(x: Sheet, planned: bool, name: usize, apart: bool) -> Layout {
        let policy = x.settings.policy;
        let asked = policy.meant();
        Layout {
            name,
            numbers: widths_of(x, apart),
            apart,
            planned,
            placed: asked.is_first_fit(),
        }
    }

    // The layout of a sheet: where a line does not hold it all, thousands stand together, and names have what is left.
    fn of(x: Sheet, names: &Names, planned: bool) -> Layout {
        let widest = (0..x.table.n.min(Table::MOST_TASKS))
            .map(|i| names.columns(i))
            .max();
        let width = widest.unwrap_or(0).max(4);
        let apart = Layout::laid_out(x, planned, width, true);
        if text::columns_of(Titles(apart)) <= LINE {
            return apart;
        }
        let bare = Layout::laid_out(x, planned, 4, false);
        let left = (LINE + 4).saturating_sub(text::columns_of(Titles(bare)));
        Layout {
            name: width.min(left),
            ..bare
        }
    }
}

// The line of titles.
#[derive(Clone, Copy)]
struct Titles(Layout);

impl fmt::Display for Titles {
    fn fmt<W: fmt::Write>(&self, f: &mut fmt::Formatter<W>) -> fmt::Result {
        let layout = self.0;
        let [period, c, tmin, tmax, e] = layout.numbers;
        let name = layout.name;
        write!(f, "{:name$}", "task")?;
        if layout.planned {
            let on = if layout.placed { " on" } else { "" };
            write!(f, " {:>period$} stretch{on} share%", "period")?;
        }
        write!(
            f,
            " {:>c$} {:>tmin$} {:>tmax$} {:>e$}",
            "C", "Tmin", "Tmax", "E"
        )
    }
}

// The line of a task behind its name. Each column is written together with the blanks in front of it, which spares a write.
#[derive(Clone, Copy)]
struct Line {
    row: Row,
    layout: Layout,
}

impl Line {
    // What a plan grants the task.
    fn granted<W: fmt::Write>(self, f: &mut fmt::Formatter<W>) -> fmt::Result {
        write!(f, "{:8}", self.row.stretch())?;
        if self.layout.placed {
            write!(f, "{:3}", self.row.granted.processor)?;
        }
        write!(f, "{:7.1}", Percent(self.row.share))
    }
}

impl fmt::Display for Line {
    fn fmt<W: fmt::Write>(&self, f: &mut fmt::Formatter<W>) -> fmt::Result {
        let Task { c, tmin, tmax, e } = self.row.task;
        let [w0, w1, w2, w3, w4] = self.layout.numbers.map(|width| width.saturating_add(1));
        let number = |value| Number {
            value,
            apart: self.layout.apart,
        };
        if self.layout.planned {
            write!(f, "{:w0$}", number(self.row.granted.period))?;
            self.granted(f)?;
        }
        write!(
            f,
            "{:w1$}{:w2$}{:w3$}{:w4$}",
            number(c),
            number(tmin),
            number(tmax),
            number(e)
        )
    }
}

// A line for each task of a sheet, whose results are those of a plan at a step.
fn put_rows(page: &mut Page, x: Sheet, names: &Names, step: u32, layout: Layout) {
    let rows = x.table.rows.iter().zip(&x.results.rows).take(x.table.n);
    for (i, (task, granted)) in rows.enumerate() {
        let row = Row {
            task: *task,
            granted: *granted,
            share: share::share_at(*task, x.settings, step).parts,
        };
        names.put_in(page, i, layout.name);
        writeln!(page, "{}", Line { row, layout });
    }
}

// The tasks of a sheet with their names, in a plan at a step with its results.
pub fn put_table(page: &mut Page, x: Sheet, names: &Names, step: u32, planned: bool) {
    let layout = Layout::of(x, names, planned);
    writeln!(page, "\n{}", Titles(layout));
    put_rows(page, x, names, step, layout);
}

// A line for each task of a sheet with its results, for other programs: its name or number, its period, and its processor, 0 for any.
pub fn put_csv(page: &mut Page, x: Sheet, names: &Names) {
    writeln!(page, "task,period,processor");
    for (i, granted) in x.results.rows.iter().take(x.table.n).enumerate() {
        names.put(page, i);
        writeln!(page, ",{},{}", granted.period, granted.processor);
    }
}
