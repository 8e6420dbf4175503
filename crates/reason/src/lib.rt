// Why a record of either kind is not good: the first of the limits that it breaks, in the documents' order, and the number that tells it.
// Contracts cite `specs/Reason` and, for a task that needs several cores, `specs/WideReason`.
#![tactic(auto)]

ghost use Rattle.std.specs.Prelude.{◌≡◌, Some};
ghost use Rattle.reason.specs.Reason.{notch_reason, reason_of, reason_number};
ghost use Rattle.reason.specs.WideReason.{rest_reason, wide_reason_of, wide_reason_number};

use kinds::Task;
use wide_task::WideTask;

// The limits of a record, in the documents' order.
#[derive(Clone, Copy)]
pub enum Reason {
    NoCost,
    CostAboveTmin,
    TminAboveTmax,
    TmaxTooLong,
    ElasticityTooGreat,
    NoNotch,
    TminOffNotch,
    TmaxOffNotch,
}

impl Reason {
    // Its number from 1: the limits in their order, and last that there is no notch to stand on; 0 is told where no limit is broken.
    pub fn number(self) -> u16
        ensures { result ≡ reason_number (Some self) }
    {
        match self {
            Reason::NoCost => 1,
            Reason::CostAboveTmin => 2,
            Reason::TminAboveTmax => 3,
            Reason::TmaxTooLong => 4,
            Reason::ElasticityTooGreat => 5,
            Reason::TminOffNotch => 6,
            Reason::TmaxOffNotch => 7,
            Reason::NoNotch => 8,
        }
    }
}

// The limits of a task that needs several cores, in the documents' order. Three of them are those of a record too, and are checked here again: an
// enum of those three, with a conversion to either kind, would be longer.
#[derive(Clone, Copy)]
pub enum WideReason {
    NoSpan,
    SpanNotBelowTmin,
    SpanNotBelowCost,
    CostNotAboveTmax,
    CostTooGreat,
    TminAboveTmax,
    TmaxTooLong,
    ElasticityTooGreat,
}

impl WideReason {
    // Its number from 1: the limits in their order; 0 is told where no limit is broken.
    pub fn number(self) -> u16
        ensures { result ≡ wide_reason_number (Some self) }
    {
        match self {
            WideReason::NoSpan => 1,
            WideReason::SpanNotBelowTmin => 2,
            WideReason::SpanNotBelowCost => 3,
            WideReason::CostNotAboveTmax => 4,
            WideReason::CostTooGreat => 5,
            WideReason::TminAboveTmax => 6,
            WideReason::TmaxTooLong => 7,
            WideReason::ElasticityTooGreat => 8,
        }
    }
}

// The first limit that a record breaks where a swap costs so much and a notch is so wide.
#[tactic(auto, unfolding(crate::specs::Reason::reason_of))]
pub fn reason_of(task: Task, swap: u16, notch: u16) -> Option<Reason>
    ensures { result ≡ reason_of swap notch task }
{
    let cost = task.cost(swap);
    if task.c < 1 {
        return Some(Reason::NoCost);
    }
    if u64::from(task.tmin) < cost {
        return Some(Reason::CostAboveTmin);
    }
    if task.tmax < task.tmin {
        return Some(Reason::TminAboveTmax);
    }
    if Task::LONGEST_PERIOD < task.tmax {
        return Some(Reason::TmaxTooLong);
    }
    if Task::GREATEST_ELASTICITY < task.e {
        return Some(Reason::ElasticityTooGreat);
    }
    off_notch(task, notch)
}

// The same of a record that keeps document 01's limits: whether it stands on notches.
#[tactic(auto, unfolding(crate::specs::Reason::notch_reason))]
fn off_notch(task: Task, notch: u16) -> Option<Reason>
    ensures { result ≡ notch_reason notch task }
{
    if notch == 0 {
        return Some(Reason::NoNotch);
    }
    let q = u32::from(notch);
    if task.tmin % q != 0 {
        return Some(Reason::TminOffNotch);
    }
    if task.tmax % q != 0 {
        return Some(Reason::TmaxOffNotch);
    }
    None
}

// The first limit that a task which needs several cores breaks.
#[tactic(auto, unfolding(crate::specs::WideReason::wide_reason_of))]
pub fn wide_reason_of(task: WideTask) -> Option<WideReason>
    ensures { result ≡ wide_reason_of task }
{
    if task.l < 1 {
        return Some(WideReason::NoSpan);
    }
    if task.tmin <= task.l {
        return Some(WideReason::SpanNotBelowTmin);
    }
    if task.c <= u64::from(task.l) {
        return Some(WideReason::SpanNotBelowCost);
    }
    if task.c <= u64::from(task.tmax) {
        return Some(WideReason::CostNotAboveTmax);
    }
    wide_rest(task)
}

// The same of one that keeps the limits of its span and whose cost is above Tmax: the rest of Ask 4's, and Tmax and E as in document 01.
#[tactic(auto, unfolding(crate::specs::WideReason::rest_reason))]
fn wide_rest(task: WideTask) -> Option<WideReason>
    ensures { result ≡ rest_reason task }
{
    let costliest = WideTask::MOST_TMINS * u64::from(task.tmin);
    if costliest < task.c {
        return Some(WideReason::CostTooGreat);
    }
    if task.tmax < task.tmin {
        return Some(WideReason::TminAboveTmax);
    }
    if WideTask::LONGEST_PERIOD < task.tmax {
        return Some(WideReason::TmaxTooLong);
    }
    if WideTask::GREATEST_ELASTICITY < task.e {
        return Some(WideReason::ElasticityTooGreat);
    }
    None
}
