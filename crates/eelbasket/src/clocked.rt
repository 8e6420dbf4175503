// The release clock, exported. Contracts cite the definitions of `c_clock`.
ghost use Rattle.std.specs.Prelude.{◌≡◌};
ghost use Rattle.clock.specs.Start.{started};
ghost use Rattle.c_clock.specs.Clocked.{told_start, ToldCallIs};

use c_clock::{ToldCall, ToldStart};
use clock::Clock;

// Starts a clock for these periods at a tick.
#[unsafe(no_mangle)]
pub extern "C" fn eelbasket_clock_start(periods: &[u32], tick: u32) -> ToldStart
    ensures { told_start result ≡ started periods.now tick }
{
    c_clock::clock_start_told(periods, tick)
}

// A call with the present tick.
#[unsafe(no_mangle)]
pub extern "C" fn eelbasket_clock_call(clock: Clock, present: u32) -> ToldCall
    ensures { ToldCallIs clock present result }
{
    c_clock::clock_call_told(clock, present)
}
