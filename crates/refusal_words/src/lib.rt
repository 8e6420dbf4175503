// The refusals of documents 01 and 02 as people read them, for every program that shows one.
#![tactic(auto)]

mod words;

use kinds::Refusal;
use std::fmt;
pub use words::{Because, Sentence, WideBecause};

// The line of a refusal: its number, its place and one sentence on what to look at, and behind them the reason of a record that is not good.
#[derive(Clone, Copy)]
pub struct Line<B> {
    refusal: Refusal,
    reason: Option<B>,
}

impl<B> Line<B> {
    // The line of a refusal of a table; the reason is that of the record which it says is not good.
    pub fn of<R: Copy, F: Fn(R) -> Option<B>>(refusal: Refusal, rows: &[R], because: F) -> Line<B>
        requires { (row : R) → F.pre because row }
    {
        let reason = match refusal {
            Refusal::BadRecord(place) => rows.get(place).and_then(|row| because(*row)),
            _ => None,
        };
        Line { refusal, reason }
    }
}

impl Line<Because> {
    // The line of a refusal that stands alone.
    pub fn alone(refusal: Refusal) -> Line<Because> {
        Line {
            refusal,
            reason: None,
        }
    }
}

impl<B: fmt::Display> fmt::Display for Line<B> {
    fn fmt<W: fmt::Write>(&self, f: &mut fmt::Formatter<W>) -> fmt::Result {
        let number = self.refusal.number();
        let place = self.refusal.place();
        write!(f, "refused {number} at {place}: {}", Sentence(self.refusal))?;
        match &self.reason {
            Some(reason) => write!(f, "{reason}"),
            None => Ok(()),
        }
    }
}
