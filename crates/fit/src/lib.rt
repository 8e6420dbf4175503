// First fit: take tasks in record order, give each to the lowest-numbered processor whose load with it is at most S. Contracts cite
// `specs/Fit`.
#![tactic(auto)]

ghost use Rattle.std.specs.Prelude.{◌≤◌, length};
ghost use Rattle.kinds.specs.Limits.{most_processors};
ghost use Rattle.fit.specs.Fit.{load_in};
ghost use Rattle.fit.specs.Handover.{Loads, FitIs};

use kinds::{Settings, Share, Table};

// How a trial ended: whether every task is placed, and the processor of each task that was, from 1. No Option: `shortfall` shows the processors
// also where a task is left without one.
#[derive(Clone, Copy)]
pub struct Fit {
    pub placed: bool,
    pub processors: [u16; Table::MOST_TASKS],
}

// The trial of n tasks with the first of these loads on m processors. Document 01: "The first task that fits nowhere ends the whole trial at once."
pub fn first_fit(loads: &[u32], n: usize, m: usize) -> Fit
    requires { Loads loads.now n × (n ≤ length loads.now) × (m ≤ most_processors) }
    ensures { FitIs m (load_in loads.now) n result }
{
    let most = Share::SCALE as u32;
    let mut held = [0u32; Settings::MOST_PROCESSORS as usize];
    let mut processors = [0u16; Table::MOST_TASKS];
    let mut i: usize = 0;
    // document 01's form: the walk over the processors, inside that over the tasks, ends both by a label, and i says where
    'tasks: while i < n {
        let load = loads[i];
        let mut j: usize = 0;
        loop {
            if m <= j {
                break 'tasks;
            }
            if held[j] <= most - load {
                break;
            }
            j += 1;
        }
        held[j] += load;
        processors[i] = (j + 1) as u16;
        i += 1;
    }
    Fit {
        placed: i == n,
        processors,
    }
}
