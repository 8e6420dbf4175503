// The rules of document 01, "Numbers on a task", on plain numbers: a cost, periods, an elasticity, a step; and of a job of either kind, which
// has those numbers. Contracts cite `specs/Rule`, and for a job `specs/Job`.
#![tactic(auto)]

ghost use Rattle.std.specs.Prelude.{ℕ, ◌≡◌, ◌≤◌};
ghost use Rattle.kinds.specs.Task.{Good};
ghost use Rattle.rule.specs.Rule.{most_cost, most_parts, part_of, share_of, saturation_of, period_of, notched_up};
ghost use Rattle.rule.specs.Tasks.{numbers_of, task-limited};
ghost use Rattle.rule.specs.Job as job;
ghost use Rattle.rule.specs.Job.{Numbers, Limited, largest_of, least_of, saturation_at, ShareIs, StepIs, PeriodIs};

use kinds::{Share, Task};

// The share of a processor that a job of this cost takes when it comes every `period` ticks.
pub fn part(cost: u64, period: u32) -> u64
    requires { (1 ≤ period) × (cost ≤ most_cost) }
    ensures { result ≡ part_of cost period }
{
    ground::ceil_div(cost * Share::SCALE, u64::from(period))
}

// The share at step k, between the largest and the least.
pub fn share_at(largest: u64, least: u64, e: u32, k: u32) -> u64
    ensures { result ≡ share_of largest least e k }
{
    least.max(largest.saturating_sub(u64::from(k) * u64::from(e)))
}

// The saturation step; 0 where the elasticity is 0.
pub fn saturation(largest: u64, least: u64, e: u32) -> u64
    requires { largest ≤ most_parts }
    ensures { result ≡ saturation_of largest least e }
{
    if e == 0 {
        return 0;
    }
    ground::ceil_div(largest.saturating_sub(least), u64::from(e))
}

// The period that a share allows, from the shortest on.
pub fn period(cost: u64, tmin: u32, share: u64) -> u64
    requires { (cost ≤ most_cost) × (1 ≤ share) × (share ≤ most_parts) }
    ensures { result ≡ period_of cost tmin share }
{
    u64::from(tmin).max(ground::ceil_div(cost * Share::SCALE, share))
}

// The smallest multiple of a notch from t on.
pub fn notched_up(notch: u16, t: u64) -> u64
    requires { (1 ≤ notch) × (t ≤ most_parts) }
    ensures { result ≡ notched_up notch t }
{
    // most wheels have notches of one tick, and a division is dear
    if notch == 1 {
        return t;
    }
    ground::ceil_div(t, u64::from(notch)) * u64::from(notch)
}

// A job of either kind: its whole cost C, its shortest and longest period and its elasticity E, and what the rules give it.
pub trait Job: Copy {
    // Its numbers, when they keep the limits of its kind, and between how many processors' whole time its shares then are.
    ghost numbers: { Self → Numbers };

    ghost Good: { Self → Type 0 };

    ghost over: { ℕ };

    ghost within: { ℕ };

    fn c(self) -> u64
        ensures { result ≡ (numbers self).c };

    fn tmin(self) -> u32
        ensures { result ≡ (numbers self).tmin };

    fn tmax(self) -> u32
        ensures { result ≡ (numbers self).tmax };

    fn e(self) -> u32
        ensures { result ≡ (numbers self).e };

    ghost limited: { (job : Self) → Good job → Limited over within (numbers job) };

    // Document 01: "Largest share: C × S / Tmin rounded up."
    final fn largest(self) -> Share
        requires { Good self }
        ensures { ShareIs over within (largest_of (numbers self)) result.parts }
    {
        Share::new(part(self.c(), self.tmin()))
    }

    // Document 01: "Least share: C × S / Tmax rounded up."
    final fn least(self) -> Share
        requires { Good self }
        ensures { ShareIs over within (least_of (numbers self)) result.parts }
    {
        Share::new(part(self.c(), self.tmax()))
    }

    // Document 01: "Share at step k: the larger of the least share and (largest share − k × E), the latter taken as 0 when negative."
    final fn share_at(self, k: u32) -> Share
        requires { Good self }
        ensures { ShareIs over within (job.share_at (numbers self) k) result.parts }
    {
        Share::new(share_at(self.largest().parts, self.least().parts, self.e(), k))
    }

    // The saturation step; 0 where the elasticity is 0.
    final fn saturation(self) -> u32
        requires { Good self }
        ensures { StepIs over within (saturation_at (numbers self)) result }
    {
        saturation(self.largest().parts, self.least().parts, self.e()) as u32
    }

    // Document 01: "the smallest whole T from Tmin to Tmax with C × S ≤ share × T", the share that of step k.
    final fn period_at(self, k: u32) -> u32
        requires { Good self }
        ensures { PeriodIs (numbers self) k result }
    {
        period(self.c(), self.tmin(), self.share_at(k).parts) as u32
    }
}

// A task record, whose C is the whole cost of a job where its swaps are paid for: one processor serves it.
impl Job for Task {
    ghost numbers = { numbers_of };

    ghost Good = { Good };

    ghost over = { 0 };

    ghost within = { 1 };

    fn c(self) -> u64 {
        u64::from(self.c)
    }

    fn tmin(self) -> u32 {
        self.tmin
    }

    fn tmax(self) -> u32 {
        self.tmax
    }

    fn e(self) -> u32 {
        self.e
    }

    ghost limited = { task-limited };
}
