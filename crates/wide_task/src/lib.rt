// Ask 4: a task that needs several cores, as a type with its limits; shares, saturation step and periods by `rule::Job`; and the cores that it
// needs at a step. Contracts cite `specs/`, one file for each notion.
#![tactic(auto)]

ghost use Rattle.std.specs.Prelude.{◌≡◌};
ghost use Rattle.kinds.specs.Limits.{longest_period, greatest_elasticity};
ghost use Rattle.wide_task.specs.Limits.{most_tmins};
ghost use Rattle.wide_task.specs.WideTask.{wide_task, Good, is_good};
ghost use Rattle.wide_task.specs.Job.{numbers_of, wide-limited};
ghost use Rattle.wide_task.specs.Handover.{CoresIs};

use kinds::{Table, Task};
use rule::Job;

// A task that needs several cores: cost C, span L, shortest and longest period, elasticity E. Any numbers may stand in it.
#[repr(C)]
#[derive(Clone, Copy)]
pub struct WideTask {
    pub c: u64,
    pub l: u32,
    pub tmin: u32,
    pub tmax: u32,
    pub e: u32,
}

impl WideTask {
    // Ask 4: "C at most 16 × Tmin".
    pub const MOST_TMINS: u64 = 16;

    pub const LONGEST_PERIOD: u32 = Task::LONGEST_PERIOD;

    pub const GREATEST_ELASTICITY: u32 = Task::GREATEST_ELASTICITY;

    // An unused place of a table.
    pub const NONE: WideTask = WideTask {
        c: 0,
        l: 0,
        tmin: 0,
        tmax: 0,
        e: 0,
    };

    pub fn new(c: u64, l: u32, tmin: u32, tmax: u32, e: u32) -> WideTask
        ensures { result ≡ wide_task c l tmin tmax e }
    {
        WideTask {
            c,
            l,
            tmin,
            tmax,
            e,
        }
    }

    // Ask 4: "1 ≤ L < Tmin, L < C, Tmax < C, C at most 16 × Tmin, and Tmax and E as in 01".
    #[tactic(auto, unfolding(crate::specs::WideTask::is_good))]
    pub fn good(self) -> bool
        ensures { result ≡ is_good self }
    {
        1 <= self.l
            && self.l < self.tmin
            && u64::from(self.l) < self.c
            && u64::from(self.tmax) < self.c
            && self.c <= WideTask::MOST_TMINS * u64::from(self.tmin)
            && self.tmin <= self.tmax
            && self.tmax <= WideTask::LONGEST_PERIOD
            && self.e <= WideTask::GREATEST_ELASTICITY
    }
}

// A table of such tasks by value: room for the most tasks, of which the first n count. A lent count may be greater than the room.
// It is no generic table together with `kinds::Table`, since that one is laid out for C, and every promise on a table names it.
#[derive(Clone, Copy)]
pub struct WideTable {
    pub rows: [WideTask; Table::MOST_TASKS],
    pub n: usize,
}

// The limits that definitions name are those that the code names.
pub fn limits()
    ensures most_tmins { WideTask.MOST_TMINS ≡ most_tmins }
    ensures longest_period { WideTask.LONGEST_PERIOD ≡ longest_period }
    ensures greatest_elasticity { WideTask.GREATEST_ELASTICITY ≡ greatest_elasticity }
{}

// Its rules are those of every job; document 01's shares of one are above one processor's.
impl Job for WideTask {
    ghost numbers = { numbers_of };

    ghost Good = { Good };

    ghost over = { 1 };

    ghost within = { most_tmins };

    fn c(self) -> u64 {
        self.c
    }

    fn tmin(self) -> u32 {
        self.tmin
    }

    fn tmax(self) -> u32 {
        self.tmax
    }

    fn e(self) -> u32 {
        self.e
    }

    ghost limited = { wide-limited };
}

// The cores needed at any step: (C − L) / (T − L) rounded up, T the period at that step.
pub fn cores_at(task: WideTask, k: u32) -> u64
    requires { Good task }
    ensures { CoresIs task k result }
{
    let l = u64::from(task.l);
    let t = u64::from(task.period_at(k));
    ground::ceil_div(task.c - l, t - l)
}
