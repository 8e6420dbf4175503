// Ask 7: a planner for the cores, which proposes a processor for each task at a step. It promises nothing of what it proposes, so nobody
// needs to trust it: `proposal::check` says whether a proposal may be used. Contracts say only what keeps the walks in bounds.
#![tactic(auto)]

ghost use Rattle.std.specs.Prelude.{◌≤◌, ◌<◌};
ghost use Rattle.kinds.specs.Limits.{scale, most_tasks, most_processors};
ghost use Rattle.fit.specs.Handover.{Loads};
ghost use Rattle.planner.specs.Handover.{WithRoom};

use kinds::{Settings, Share, Table};
use springs::Springs;

// The heaviest of n tasks, the first where several are as heavy.
fn heaviest(loads: &[u32; Table::MOST_TASKS], n: usize) -> usize
    requires { (1 ≤ n) × (n ≤ most_tasks) }
    ensures { result < n }
{
    let mut found = 0;
    // Over the numbers: the number is what is looked for.
    for i in 1..n {
        if loads[found] < loads[i] {
            found = i;
        }
    }
    found
}

// The fullest of m processors that has room for a load, the first where several are as full.
fn fullest(held: &[u32; Settings::MOST_PROCESSORS as usize], load: u32, m: usize) -> Option<usize>
    requires { (load ≤ scale) × (m ≤ most_processors) }
    ensures { WithRoom held.now load m result }
{
    let room = Share::SCALE as u32 - load;
    let mut found: Option<usize> = None;
    // Over the numbers: the number is what is looked for.
    for j in 0..m {
        if room < held[j] {
            continue;
        }
        match found {
            Some(i) if held[j] <= held[i] => {}
            _ => found = Some(j),
        }
    }
    found
}

// Best fit in the order of falling load: each task goes to the fullest processor that has room for it, and has then no load left. The
// first task that fits nowhere ends the trial; it and those after it get 0.
fn best_fit(mut loads: [u32; Table::MOST_TASKS], n: usize, m: usize) -> [u16; Table::MOST_TASKS]
    requires { Loads loads n × (m ≤ most_processors) }
{
    let mut held = [0u32; Settings::MOST_PROCESSORS as usize];
    let mut processors = [0u16; Table::MOST_TASKS];
    for _ in 0..n {
        let i = heaviest(&loads, n);
        let load = loads[i];
        let Some(j) = fullest(&held, load, m) else {
            return processors;
        };
        held[j] += load;
        loads[i] = 0;
        processors[i] = (j + 1) as u16;
    }
    processors
}

// A processor for each task at a step: where first fit places each, as first fit does, else by best fit in the order of falling load. Where
// refusals 2, 3 and 6 come first, zeros.
pub fn propose(table: Table, settings: Settings, step: u32) -> [u16; Table::MOST_TASKS] {
    let n = table.n;
    let m = usize::from(settings.m);
    let mut springs = Springs::new(settings.notch);
    let Ok(()) = proposal::admit(table, settings, step, n, m, &mut springs) else {
        return [0u16; Table::MOST_TASKS];
    };
    let trial = fit::first_fit(&springs.loads, springs.n, m);
    if trial.placed {
        return trial.processors;
    }
    best_fit(springs.loads, springs.n, m)
}
