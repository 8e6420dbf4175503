// The refusals of documents 01 and 02 in words. Printed by `scripts/refusals rattle` from docs/refusals.txt.
use kinds::Refusal;
use reason::{Reason, WideReason};
use std::fmt;

// A refusal in one sentence on what to look at.
#[derive(Clone, Copy)]
pub struct Sentence(pub Refusal);

impl fmt::Display for Sentence {
    fn fmt<W: fmt::Write>(&self, f: &mut fmt::Formatter<W>) -> fmt::Result {
        match self.0 {
            Refusal::OutputTooShort(place) => {
                write!(
                    f,
                    "what is lent is too short: {place} entries or bytes are needed"
                )
            }
            Refusal::BadRecord(place) => write!(f, "task {place} is not good"),
            Refusal::SheetEnds(place) => {
                write!(f, "the sheet ends at byte {place}, where more is due")
            }
            Refusal::BytesAfterLast(place) => {
                write!(f, "the sheet is over at byte {place}, and bytes follow")
            }
            Refusal::NoSuchRecord(place) => write!(f, "there is no task {place} to leave"),
            Refusal::ProcessorOutOfRange(place) => {
                write!(f, "the processor proposed for task {place} is not 1 to m")
            }
            Refusal::ProcessorOverfull(place) => {
                write!(f, "the tasks proposed for processor {place} do not fit it")
            }
            Refusal::BadLine(place) => {
                write!(f, "line {place} (from 0) is not four numbers C,Tmin,Tmax,E")
            }
            Refusal::BadPeriod(place) => {
                write!(f, "the period of task {place} is 0 or above 1,000,000,000")
            }
            Refusal::WrongResult(place) => {
                write!(f, "the result of task {place} is not the one that we give")
            }
            refusal => write!(f, "{}", plain(refusal)),
        }
    }
}

// The sentence of a refusal that shows no place; nothing of one that does, each of which is named here too, so that none is forgotten.
fn plain(refusal: Refusal) -> &'static str {
    match refusal {
        Refusal::NoSuchPolicy => "the policy must be 1, 2, 4 or 5",
        Refusal::Misset => "m must be 1 to 16 (policy 5: 1), q not 0, the edition 1 or 2",
        Refusal::TooManyTasks(_) => "a table has at most 32 tasks",
        Refusal::PolicyNotServed => "policy 4 has no quick finder and no margin",
        Refusal::NoStepPasses => "the tasks fit at no step, not even at full compression",
        Refusal::WrongSettingsCount => "the sheet must begin with a settings count of 2 to 5",
        Refusal::WrongResultCount(_) => "the result count is neither 0 nor the task count",
        Refusal::PolicyWithdrawn => "policy 3 is withdrawn: choose 1, 2, 4 or 5",
        Refusal::NoResults => "there are tasks without results: fill the sheet in first",
        Refusal::OutputTooShort(_)
        | Refusal::BadRecord(_)
        | Refusal::SheetEnds(_)
        | Refusal::BytesAfterLast(_)
        | Refusal::NoSuchRecord(_)
        | Refusal::ProcessorOutOfRange(_)
        | Refusal::ProcessorOverfull(_)
        | Refusal::BadLine(_)
        | Refusal::BadPeriod(_)
        | Refusal::WrongResult(_) => "",
    }
}

// Why a record is not good, behind a colon.
#[derive(Clone, Copy)]
pub struct Because(pub Reason);

impl fmt::Display for Because {
    fn fmt<W: fmt::Write>(&self, f: &mut fmt::Formatter<W>) -> fmt::Result {
        match self.0 {
            Reason::NoCost => write!(f, ": C is 0"),
            Reason::CostAboveTmin => write!(f, ": C + 2w is above Tmin"),
            Reason::TminAboveTmax => write!(f, ": Tmin is above Tmax"),
            Reason::TmaxTooLong => write!(f, ": Tmax is above 1,000,000,000"),
            Reason::ElasticityTooGreat => write!(f, ": E is above 1,000,000"),
            Reason::TminOffNotch => write!(f, ": Tmin is not a multiple of q"),
            Reason::TmaxOffNotch => write!(f, ": Tmax is not a multiple of q"),
            Reason::NoNotch => write!(f, ": q is 0"),
        }
    }
}

// Why a job that needs several cores is not good, behind a colon.
#[derive(Clone, Copy)]
pub struct WideBecause(pub WideReason);

impl fmt::Display for WideBecause {
    fn fmt<W: fmt::Write>(&self, f: &mut fmt::Formatter<W>) -> fmt::Result {
        match self.0 {
            WideReason::NoSpan => write!(f, ": L is 0"),
            WideReason::SpanNotBelowTmin => write!(f, ": L is not below Tmin"),
            WideReason::SpanNotBelowCost => write!(f, ": L is not below C"),
            WideReason::CostNotAboveTmax => write!(f, ": C is not above Tmax"),
            WideReason::CostTooGreat => write!(f, ": C is above 16 times Tmin"),
            WideReason::TminAboveTmax => write!(f, ": Tmin is above Tmax"),
            WideReason::TmaxTooLong => write!(f, ": Tmax is above 1,000,000,000"),
            WideReason::ElasticityTooGreat => write!(f, ": E is above 1,000,000"),
        }
    }
}
