// Ask 12: a release clock on 32 bits. It says which task is due at the present tick, and when that task is released next. Contracts cite
// `started` of `specs/Start`, and `released` and `after_call` of `specs/Call`; what they mean for time that does not wrap is in `clock_time`.
#![tactic(auto)]

ghost use Rattle.std.specs.Prelude.{◌≡◌, ◌≤◌, ◌<◌, length, option_to_list, IfSome};
ghost use Rattle.kinds.specs.Limits.{most_tasks};
ghost use Rattle.clock.specs.Ticks.{half_turn, late};
ghost use Rattle.clock.specs.Start.{is_period, no_clock, clock_from, started, handed_start};
ghost use Rattle.clock.specs.Call.{CallIs};
ghost use Rattle.clock.specs.Handover.{late_of, latest_of};

use kinds::{Refusal, Table, Task};

// The clock table by value: for each task its period and its next release, of which the first n count. It is laid out as C lays it out.
#[repr(C)]
#[derive(Clone, Copy)]
pub struct Clock {
    pub periods: [u32; Table::MOST_TASKS],
    pub next: [u32; Table::MOST_TASKS],
    pub n: usize,
}

impl Clock {
    // Ask 12: due "when present minus next, wrapping at 32 bits, is below 2,147,483,648".
    pub const HALF_TURN: u32 = 2_147_483_648;

    // Hands back the due task that is furthest behind at the present tick, if one is due, and moves its next release on by its period.
    pub fn call(&mut self, present: u32) -> Result<Option<usize>, Refusal>
        ensures { CallIs self.old present result self.new }
    {
        if Table::MOST_TASKS < self.n {
            return Err(Refusal::TooManyTasks(self.n));
        }
        let Some(task) = most_late(&self.next[..self.n], present) else {
            return Ok(None);
        };
        self.next[task] = self.next[task].wrapping_add(self.periods[task]);
        Ok(Some(task))
    }
}

// The half turn that definitions name is the one that the code names.
pub fn limits()
    ensures { Clock.HALF_TURN ≡ half_turn }
{}

// Whether a clock takes this period.
pub fn is_period(ticks: u32) -> bool
    ensures { result ≡ is_period ticks }
{
    (1..=Task::LONGEST_PERIOD).contains(&ticks)
}

// A clock without tasks, all zeros.
pub fn no_clock() -> Clock
    ensures { result ≡ no_clock }
{
    Clock {
        periods: [0; Table::MOST_TASKS],
        next: [0; Table::MOST_TASKS],
        n: 0,
    }
}

// The clock of these periods, with every next release at the starting tick.
fn clock_from(periods: &[u32], tick: u32) -> Clock
    requires { length periods.now ≤ most_tasks }
    ensures { result ≡ clock_from periods.now tick }
{
    let n = periods.len();
    let mut held = [0; Table::MOST_TASKS];
    held[..n].copy_from_slice(periods);
    let mut next = [0; Table::MOST_TASKS];
    next[..n].fill(tick);
    Clock {
        periods: held,
        next,
        n,
    }
}

// Starts a clock for these periods at a tick.
pub fn start(periods: &[u32], tick: u32) -> Result<Clock, Refusal>
    ensures { handed_start result ≡ started periods.now tick }
{
    let n = periods.len();
    if Table::MOST_TASKS < n {
        return Err(Refusal::TooManyTasks(n));
    }
    match periods.iter().position(|ticks| !is_period(*ticks)) {
        Some(bad) => Err(Refusal::BadPeriod(bad)),
        None => Ok(clock_from(periods, tick)),
    }
}

// How many ticks a task with this next release is behind, if it is due.
fn ticks_behind(present: u32, next: u32) -> Option<u32>
    ensures { late_of result ≡ late present next }
{
    let ticks = present.wrapping_sub(next);
    (ticks < Clock::HALF_TURN).then_some(ticks)
}

// The task that is most late, the lowest on a tie; none where none is due.
fn most_late(next: &[u32], present: u32) -> Option<usize>
    ensures listed { option_to_list result ≡ latest_of present next.now }
    ensures within { IfSome result (λ i. i < length next.now) }
{
    let mut latest: Option<(usize, u32)> = None;
    for (task, at) in next.iter().enumerate() {
        if let Some(ticks) = ticks_behind(present, *at) {
            if latest.is_none_or(|(_, most)| most < ticks) {
                latest = Some((task, ticks));
            }
        }
    }
    let (task, _) = latest?;
    Some(task)
}
