// What people read of a table that no step passes: by how much it does not fit at full compression, and what alone would make it fit; and of any
// table both sides of the policy's test at a step. All numbers come from proved calls. The text is tested and not promised.
#![tactic(auto)]

ghost use Rattle.std.specs.Prelude.{◌≤◌};
ghost use Rattle.kinds.specs.Limits.{most_processors};
ghost use Rattle.fit.specs.Handover.{Loads};

use kinds::{Policy, Refusal, Settings, Share, Table};
use policy::{Total, Weights};
use relief::Relief;
use springs::Springs;
use std::fmt;
use task_names::Names;
use text::{Apart, Page, Percent};

// What would help is told of one processor more, and then of each task fewer: the step at which the tasks fit then.
const HELPS: usize = Table::MOST_TASKS + 1;

const MOST_SHOWN: usize = 5;

// Every share is at its least at this step: a share of the whole scale has fallen to nothing.
const FULL: u32 = Share::SCALE as u32;

// The two sides of the policy's test at a step, and where first fit places the tasks there.
#[derive(Clone, Copy)]
struct Sides {
    asked: u64,
    there: u64,
    processors: [u16; Table::MOST_TASKS],
}

impl Sides {
    const NONE: Sides = Sides {
        asked: 0,
        there: 0,
        processors: [0; Table::MOST_TASKS],
    };
}

impl fmt::Display for Sides {
    fn fmt<W: fmt::Write>(&self, f: &mut fmt::Formatter<W>) -> fmt::Result {
        let asked = Percent(self.asked);
        let there = Percent(self.there);
        write!(f, "asks for {asked}% of a processor; there is {there}%")
    }
}

// Those of the loads on m processors.
fn sides_of(policy: Policy, m: u16, springs: &Springs) -> Sides
    requires { (m ≤ most_processors) × Loads springs.now.loads springs.now.n }
{
    let trial = fit::first_fit(&springs.loads, springs.n, usize::from(m));
    let processors = trial.processors;
    if m == 0 {
        return Sides {
            processors,
            ..Sides::NONE
        };
    }
    let weights = Weights::of(policy, m, springs.n);
    let total = Total::of(springs);
    Sides {
        asked: weights.left(total.sum, total.max),
        there: weights.r,
        processors,
    }
}

// Those of a table under its settings at a step, or why there are none.
fn sides_at(table: Table, settings: Settings, step: u32) -> Result<Sides, Refusal> {
    let m = settings.m;
    let policy = settings.policy;
    let mut springs = Springs::new(settings.notch);
    proposal::admit(table, settings, step, table.n, usize::from(m), &mut springs)?;
    Ok(sides_of(policy.meant(), m, &springs))
}

// By how much a table does not fit: the first task without a processor under first fit, and otherwise both sides of the test.
fn put_sides(page: &mut Page, sides: Sides, placed: bool, names: &Names) {
    if placed {
        let unplaced = sides
            .processors
            .iter()
            .position(|processor| *processor == 0);
        write!(page, "at full compression no processor has room for task ");
        names.put(page, unplaced.unwrap_or(Table::MOST_TASKS));
        writeln!(page);
        return;
    }
    writeln!(page, "full compression {sides}");
}

// Both sides of the policy's test at a step.
pub fn put_test(page: &mut Page, table: Table, settings: Settings, step: u32) {
    let sides = sides_at(table, settings, step).unwrap_or(Sides::NONE);
    writeln!(page, "step {} {sides}", Apart(u64::from(step)));
}

// What is told of one processor more and of each task fewer, in one list.
fn helps_of(more: u32, without: &[u32; Table::MOST_TASKS]) -> [Option<u32>; HELPS] {
    let mut helps = [more.checked_sub(1); HELPS];
    for (help, told) in helps[1..].iter_mut().zip(without) {
        *help = told.checked_sub(1);
    }
    helps
}

// The help with the least step, the first of those with the same.
fn least(helps: &[Option<u32>; HELPS]) -> Option<(usize, u32)> {
    let steps = helps.iter().enumerate();
    let told = steps.filter_map(|(i, step)| step.map(|step| (i, step)));
    told.min_by_key(|(_, step)| *step)
}

// A line for what would help, with the step at which the tasks fit then.
fn put_help(page: &mut Page, help: usize, step: u32, names: &Names) {
    match help.checked_sub(1) {
        None => write!(page, "with one processor more"),
        Some(task) => {
            write!(page, "without task ");
            names.put(page, task);
        }
    }
    writeln!(page, " they fit at step {}", Apart(u64::from(step)));
}

// Such lines, least step first.
fn put_helps(page: &mut Page, mut helps: [Option<u32>; HELPS], names: &Names) {
    for _ in 0..MOST_SHOWN {
        let Some((help, step)) = least(&helps) else {
            return;
        };
        put_help(page, help, step, names);
        if let Some(told) = helps.get_mut(help) {
            *told = None;
        }
    }
}

// What alone would make a table fit.
fn put_relief(page: &mut Page, table: Table, settings: Settings, names: &Names) {
    let mut without = [0u32; Table::MOST_TASKS];
    let answer = relief::relief_of(table, settings, &mut without);
    let relief = answer.unwrap_or(Relief::NONE);
    let helps = helps_of(relief.more, &without);
    if helps.iter().all(|help| help.is_none()) {
        writeln!(
            page,
            "neither one processor more nor one task fewer makes them fit"
        );
    }
    put_helps(page, helps, names);
}

// By how much a table that no step passes does not fit, and what would help.
pub fn put_shortfall(page: &mut Page, table: Table, settings: Settings, names: &Names) {
    let policy = settings.policy;
    let asked = policy.meant();
    let sides = sides_at(table, settings, FULL).unwrap_or(Sides::NONE);
    put_sides(page, sides, asked.is_first_fit(), names);
    put_relief(page, table, settings, names);
}
