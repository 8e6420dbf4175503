// The cases of the planner and of the checker of proposals, beside first fit, which the plain finder asks under policy 4.
use crate::line::FIELDS;
use crate::show::LENT;
use crate::{line, show, tables};
use kinds::{Settings, Table};
use std::io;
use std::io::Write;

// The least step at which first fit places each task: it fails at every step below.
pub(crate) fn first_fit<W: Write>(to: &mut W, table: Table, settings: Settings) -> io::Result<()> {
    let mut periods = [7u32; LENT];
    let mut processors = [9u16; LENT];
    write!(to, "\nfirst fit")?;
    let answer = plain_finder::find(table, settings, &mut periods, &mut processors);
    show::answer(to, answer)?;
    show::output(to, "processors", table.n, &processors)
}

// What the planner proposes at a step, where the checker accepts it.
pub(crate) fn planner<W: Write>(
    to: &mut W,
    table: Table,
    settings: Settings,
    step: u32,
) -> io::Result<()> {
    let mut loads = [7u32; LENT];
    let mut processors = [9u16; LENT];
    write!(to, " {step}")?;
    let verdict = checked_proposal::plan_or_refuse(
        table,
        settings,
        step,
        &mut processors,
        &mut loads,
    );
    show::verdict(to, verdict)?;
    show::output(to, "processors", table.n, &processors)?;
    show::output(to, "loads", usize::from(settings.m), &loads)
}

// What the checker says of a proposal at a step; field 9 has how many entries it has, which stand from field 10 on.
pub(crate) fn check<W: Write>(
    to: &mut W,
    table: Table,
    settings: Settings,
    step: u32,
    fields: [u32; FIELDS],
) -> io::Result<()> {
    let mut loads = [7u32; LENT];
    let mut proposal = [0u16; tables::ENTRIES];
    for (entry, field) in proposal.iter_mut().zip(&fields[10..]) {
        *entry = line::short(*field);
    }
    let count = (fields[9] as usize).min(tables::ENTRIES);
    let verdict = proposal::check(table, settings, step, &proposal[..count], &mut loads);
    show::verdict(to, verdict)?;
    show::output(to, "loads", usize::from(settings.m), &loads)
}
