// Printing: what a call answers, and lent outputs up to the entry after the last one, which shows whether it was written.
use kinds::{Refusal, Table};
use std::fmt::Display;
use std::io;
use std::io::Write;

// How many entries are lent: one more than a table may have tasks.
pub(crate) const LENT: usize = Table::MOST_TASKS + 1;

fn refused<W: Write>(to: &mut W, refusal: Refusal) -> io::Result<()> {
    write!(to, " refused {} at {}", refusal.number(), refusal.place())
}

// A step, or the number and the place of a refusal.
pub(crate) fn answer<W: Write>(to: &mut W, answer: Result<u32, Refusal>) -> io::Result<()> {
    match answer {
        Ok(step) => write!(to, " step {step}"),
        Err(refusal) => refused(to, refusal),
    }
}

pub(crate) fn verdict<W: Write>(to: &mut W, verdict: Result<(), Refusal>) -> io::Result<()> {
    match verdict {
        Ok(()) => write!(to, " accepted"),
        Err(refusal) => refused(to, refusal),
    }
}

// Whether a margin is negative, zero or positive.
pub(crate) fn margin<W: Write>(to: &mut W, margin: Result<i64, Refusal>) -> io::Result<()> {
    match margin {
        Ok(x) if x < 0 => write!(to, " below 0"),
        Ok(0) => write!(to, " 0"),
        Ok(_) => write!(to, " above 0"),
        Err(refusal) => refused(to, refusal),
    }
}

// A lent output after its name, up to entry n.
pub(crate) fn output<W: Write, T: Display + Copy>(
    to: &mut W,
    name: &str,
    n: usize,
    output: &[T],
) -> io::Result<()> {
    write!(to, " {name}")?;
    for (i, entry) in output.iter().enumerate() {
        if n < i {
            break;
        }
        write!(to, " {entry}")?;
    }
    Ok(())
}
