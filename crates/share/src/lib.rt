// The rules of document 01, "Numbers on a task", for a task record: its shares, by `rule::Job`. Contracts cite `specs/Share`; what the
// rules give at a step and for a table is in `specs/Share` and `specs/Table`, and `springs` works it out.
#![tactic(auto)]

ghost use Rattle.std.specs.Prelude.{◌≡◌};
ghost use Rattle.kinds.specs.Task.{Good};
ghost use Rattle.share.specs.Share.{largest_of, least_of, share_under};
ghost use Rattle.share.specs.Handover.{ShareIs};

use kinds::{Settings, Share, Task};
use rule::Job;

// Document 01: "Largest share: C × S / Tmin rounded up."
pub fn largest(task: Task) -> Share
    requires { Good task }
    ensures { ShareIs (largest_of task) result.parts }
{
    task.largest()
}

// Document 01: "Least share: C × S / Tmax rounded up."
pub fn least(task: Task) -> Share
    requires { Good task }
    ensures { ShareIs (least_of task) result.parts }
{
    task.least()
}

// The share of a task at a step, of any record under any settings; 0 where it is not good.
pub fn share_at(task: Task, settings: Settings, step: u32) -> Share
    ensures { result.parts ≡ share_under settings task step }
{
    let notch = settings.notch;
    if notch == 0 {
        return Share::new(0);
    }
    let swap = settings.swap;
    if !task.good(swap, notch) {
        return Share::new(0);
    }
    task.priced(swap).share_at(step)
}
