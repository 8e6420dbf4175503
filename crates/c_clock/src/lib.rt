// The release clock in numbers, since an enum does not cross to C: the clock table crosses by value, both ways. Contracts cite
// `specs/Clocked`.
#![tactic(auto)]

ghost use Rattle.std.specs.Prelude.{◌≡◌};
ghost use Rattle.clock.specs.Start.{started};
ghost use Rattle.c_clock.specs.Clocked.{told_start, ToldCallIs};

use c_numbers::ToldVerdict;
use clock::Clock;

// Number, place and the clock that is started, of zeros where the start is refused.
#[repr(C)]
#[derive(Clone, Copy)]
pub struct ToldStart {
    pub number: u32,
    pub place: usize,
    pub clock: Clock,
}

// Number and place, how many tasks are handed back (1 or 0) and which (0 for none), and the clock after the call.
#[repr(C)]
#[derive(Clone, Copy)]
pub struct ToldCall {
    pub number: u32,
    pub due: u32,
    pub task: usize,
    pub place: usize,
    pub clock: Clock,
}

// Starts a clock for these periods at a tick.
pub fn clock_start_told(periods: &[u32], tick: u32) -> ToldStart
    ensures { told_start result ≡ started periods.now tick }
{
    let begun = clock::start(periods, tick);
    let told = ToldVerdict::from(begun);
    ToldStart {
        number: told.number,
        place: told.place,
        clock: begun.unwrap_or(clock::no_clock()),
    }
}

// A call with the present tick.
pub fn clock_call_told(mut clock: Clock, present: u32) -> ToldCall
    ensures { ToldCallIs clock present result }
{
    let called = clock.call(present);
    let told = ToldVerdict::from(called);
    let due = called.unwrap_or(None);
    ToldCall {
        number: told.number,
        due: u32::from(due.is_some()),
        task: due.unwrap_or(0),
        place: told.place,
        clock,
    }
}
