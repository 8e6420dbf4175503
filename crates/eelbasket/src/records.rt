// Calls on one record, exported. Contracts cite the definitions of `share` and `reason`.
ghost use Rattle.std.specs.Prelude.{◌≡◌};
ghost use Rattle.share.specs.Share.{share_under};
ghost use Rattle.reason.specs.Reason.{reason_of, reason_number};
ghost use Rattle.reason.specs.WideReason.{wide_reason_of, wide_reason_number};
ghost use Rattle.c_numbers.specs.Numbers.{station_settings};

use c_numbers::Station;
use kinds::Task;
use wide_task::WideTask;

// The number of the first limit that a record breaks where a swap costs w and a notch is q; 0 of a good one.
#[unsafe(no_mangle)]
pub extern "C" fn eelbasket_reason(task: Task, w: u16, q: u16) -> u32
    ensures { result ≡ reason_number (reason_of w q task) }
{
    c_tables::reason_told(task, w, q)
}

// The same of a task that needs several cores.
#[unsafe(no_mangle)]
pub extern "C" fn eelbasket_wide_reason(task: WideTask) -> u32
    ensures { result ≡ wide_reason_number (wide_reason_of task) }
{
    c_tables::wide_reason_told(task)
}

// The share of a record at any step; 0 where it is not good.
#[unsafe(no_mangle)]
pub extern "C" fn eelbasket_share(task: Task, station: Station, step: u32) -> u32
    ensures { result ≡ share_under (station_settings station) task step }
{
    c_tables::share_told(task, station, step)
}
