// Runs the cases of `stdin`, a line each, on the finders, the margin, the finder of jobs that need several cores, the planner and the checker of
// proposals; `stdout` has what they must give. Outputs are lent longer than the table and filled with 7 and 9, so that the entry after the last
// one shows whether it was written.
#![tactic(auto)]

mod finders;
mod line;
mod proposals;
mod show;
mod tables;

use line::FIELDS;
use std::io;
use std::io::Write;

// What a case runs on a table; a case of jobs that need several cores has its own jobs.
#[derive(Clone, Copy)]
enum What {
    Both,
    Margin,
    FirstFit,
    Planner,
    Check,
}

impl What {
    // What a letter stands for.
    fn of(letter: u8) -> Option<What> {
        match letter {
            b'B' => Some(What::Both),
            b'M' => Some(What::Margin),
            b'F' => Some(What::FirstFit),
            b'P' => Some(What::Planner),
            b'C' => Some(What::Check),
            _ => None,
        }
    }
}

// A case; field 1 has the letter of what is run, field 8 the step.
fn run<W: Write>(to: &mut W, text: &[u8], fields: [u32; FIELDS]) -> io::Result<()> {
    let letter = line::letter(fields[1]);
    if letter == b'W' {
        return finders::wide(to, fields);
    }
    let Some(what) = What::of(letter) else {
        return Ok(());
    };
    let table = tables::table_of(text, fields);
    let settings = tables::settings_of(fields);
    let step = fields[8];
    match what {
        What::Both => {
            finders::plain(to, table, settings)?;
            finders::quick(to, table, settings)
        }
        What::Margin => show::margin(to, margin::margin_at(table, settings, step)),
        What::FirstFit => proposals::first_fit(to, table, settings),
        What::Planner => proposals::planner(to, table, settings, step),
        What::Check => proposals::check(to, table, settings, step, fields),
    }
}

fn main(rt: HostRuntime) -> io::Result<()> {
    let mut text = [0u8; 8192];
    let n = lent_input::read_full(&mut rt.stdin(), &mut text)?;
    let text = &text[..n];
    let mut out = rt.stdout();
    let mut rest = text;
    for line in text.split(|byte| *byte == b'\n') {
        if let Some((words, fields)) = line::case_of(rest) {
            out.write_all(words)?;
            run(&mut out, text, line::fields(fields))?;
            writeln!(out)?;
        }
        rest = rest.get(line.len() + 1..).unwrap_or(&[]);
    }
    Ok(())
}
