// The cases of the finders.
use crate::line::FIELDS;
use crate::show::LENT;
use crate::{line, show, tables};
use kinds::{Settings, Table};
use std::io;
use std::io::Write;

pub(crate) fn plain<W: Write>(to: &mut W, table: Table, settings: Settings) -> io::Result<()> {
    let mut periods = [7u32; LENT];
    let mut processors = [9u16; LENT];
    write!(to, "\nplain")?;
    let answer = plain_finder::find(table, settings, &mut periods, &mut processors);
    show::answer(to, answer)?;
    show::output(to, "periods", table.n, &periods)?;
    show::output(to, "processors", table.n, &processors)
}

pub(crate) fn quick<W: Write>(to: &mut W, table: Table, settings: Settings) -> io::Result<()> {
    let mut periods = [7u32; LENT];
    let mut processors = [9u16; LENT];
    write!(to, "\nquick")?;
    let looked = quick_finder::find(table, settings, &mut periods, &mut processors);
    show::answer(to, looked.answer)?;
    write!(to, " looks {}", looked.looks)?;
    show::output(to, "periods", table.n, &periods)?;
    show::output(to, "processors", table.n, &processors)
}

// The finder of jobs that need several cores; field 3 has m.
pub(crate) fn wide<W: Write>(to: &mut W, fields: [u32; FIELDS]) -> io::Result<()> {
    let mut periods = [7u32; LENT];
    let mut cores = [9u16; LENT];
    let table = tables::wide_table_of(fields);
    let m = line::short(fields[3]);
    let answer = wide_finder::find(table, m, &mut periods, &mut cores);
    show::answer(to, answer)?;
    show::output(to, "periods", table.n, &periods)?;
    show::output(to, "cores", table.n, &cores)
}
