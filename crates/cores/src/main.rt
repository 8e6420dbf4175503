// The program behind `eelbasket cores`: shows the plan of jobs that need several cores. How many cores there are is its first word, and standard
// input has a line `C,L,Tmin,Tmax,E` for each job, as people give it. The numbers are `wide_finder::find`'s, and what cannot be planned is told in
// words. One byte more is read than a text may have, so that none is taken that was cut.
#![tactic(auto)]

mod jobs;
mod words;

use kinds::Table;
use loosen::fields;
use loosen::fields::Kind;
use loosen::survey::{Survey, Untaken};
use std::io;
use text::Page;

// How many cores the first word names; 0, which the finder refuses, where it is no number of 16 bits.
fn cores_asked(rt: HostRuntime) -> u16 {
    let mut word = [0u8; 16];
    let n = lent_input::word(&rt, 1, &mut word);
    let number = fields::number_in(&word[..n], u64::from(u16::MAX)).ok();
    number.and_then(|m| u16::try_from(m).ok()).unwrap_or(0)
}

// Puts what the jobs of a text come to on so many cores.
fn put_planned(page: &mut Page, survey: &Survey, m: u16) {
    let table = jobs::table_of(survey);
    let mut periods = [0u32; Table::MOST_TASKS];
    let mut cores = [0u16; Table::MOST_TASKS];
    match wide_finder::find(table, m, &mut periods, &mut cores) {
        Err(refusal) => words::put_refused(page, refusal, table, m),
        Ok(step) => {
            words::put_head(page, step, &cores, m);
            words::put_rows(page, table, &periods, &cores, &survey.names());
        }
    }
}

// Puts what a text comes to on so many cores; where its first line that cannot be taken has no fault there are too many jobs, which is refused.
fn put_answer(page: &mut Page, given: &[u8], m: u16) {
    if loosen::LONGEST < given.len() {
        return words::put_bad_line(page, 0);
    }
    let survey = Survey::of(given, Kind::Job);
    match survey.shown().first() {
        Some(
            Untaken {
                number,
                fault: Some(_),
                ..
            },
        ) => words::put_bad_line(page, *number),
        _ => put_planned(page, &survey, m),
    }
}

fn main(rt: HostRuntime) -> io::Result<()> {
    let mut given = [0u8; loosen::LONGEST + 1];
    let n = lent_input::read_full(&mut rt.stdin(), &mut given)?;
    tidy_words::tell(&mut rt.stderr(), &given[..n], Kind::Job);
    let mut room = [0u8; words::LONGEST];
    let mut page = Page::new(&mut room);
    put_answer(&mut page, &given[..n], cores_asked(rt));
    page.write_to(&mut rt.stdout())
}
