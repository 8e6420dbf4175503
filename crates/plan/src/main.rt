// The program behind `eelbasket plan`: what the office's text on standard input comes to, with the settings that its words name. The first word says
// how: `text` for people to read, `sheet` the filled sheet, `csv` lines for other programs. The settings follow in their order on a sheet, and the
// last ones may be left out. The text may be as people give it: `tidy::tidied` makes the exact text of it, and one byte more is read than it takes.
#![tactic(auto)]

use fill::SheetPlan;
use kinds::{Granted, Refusal, Results, Settings, Sheet, Table};
use loosen::fields::Kind;
use std::io;
use task_names::Names;
use text::Page;

// The words before the first setting: the program's own name, and the form.
const BEFORE: usize = 2;

// How a plan is put.
#[derive(Clone, Copy)]
enum Form {
    Text,
    Sheet,
    Csv,
}

// The form that the first word names: by its second letter, as the command lets no other word through.
fn form_asked(rt: HostRuntime) -> Form {
    let mut word = [0u8; 16];
    let n = lent_input::word(&rt, 1, &mut word);
    match &word[..n] {
        [_, b'h', ..] => Form::Sheet,
        [_, b's', ..] => Form::Csv,
        _ => Form::Text,
    }
}

// The setting that a word names, or what is filled in where there is no word; none where it is no number.
fn setting(rt: HostRuntime, i: usize, fill_in: u16) -> Option<u16> {
    if lent_input::word_count(&rt) <= i {
        return Some(fill_in);
    }
    let mut word = [0u8; 16];
    let n = lent_input::word(&rt, i, &mut word);
    office_sheet::setting_of(&word[..n])
}

// What is refused where a setting is no number: the policy is the first.
fn unset(i: usize) -> Refusal {
    if i == 0 {
        return Refusal::NoSuchPolicy;
    }
    Refusal::Misset
}

// The settings by the words behind the form.
fn settings_asked(rt: HostRuntime) -> Result<Settings, Refusal> {
    let mut numbers = Settings::FILL_INS;
    for (i, number) in numbers.iter_mut().enumerate() {
        *number = setting(rt, i + BEFORE, *number).ok_or(unset(i))?;
    }
    Ok(Settings::from(numbers))
}

// The unfilled sheet of a table, with as many settings as words are given.
fn unfilled(settings: Settings, table: Table, count: usize) -> Sheet {
    let results = Results {
        rows: [Granted::NONE; Table::MOST_TASKS],
        n: 0,
    };
    Sheet {
        count,
        settings,
        table,
        results,
    }
}

// What an exact text and the words come to, or why it is nothing.
fn planned(rt: HostRuntime, exact: &[u8]) -> Result<SheetPlan, Refusal> {
    let settings = settings_asked(rt)?;
    let table = office::read(exact, Table::MOST_TASKS)?;
    let given = lent_input::word_count(&rt).saturating_sub(BEFORE);
    let count = given.min(Settings::MOST);
    Ok(fill::fill_sheet(unfilled(settings, table, count)))
}

// Puts the filled sheet.
fn put_sheet(page: &mut Page, x: Sheet) {
    let mut bytes = [0u8; sheet::LONGEST];
    if let Ok(k) = writer::write(x, &mut bytes) {
        page.put(bytes.get(..k).unwrap_or(&[]));
    }
}

// Puts a plan as it is asked for; why there is none is put for people to read.
fn put_planned(page: &mut Page, plan: SheetPlan, form: Form, names: &Names) {
    match (plan.answer, form) {
        (Ok(_), Form::Sheet) => put_sheet(page, plan.sheet),
        (Ok(_), Form::Csv) => view_table::put_csv(page, plan.sheet, names),
        _ => view_text::put_plan(page, plan, names),
    }
}

// Puts what an exact text and the words come to.
fn put_asked(rt: HostRuntime, page: &mut Page, exact: &[u8], names: &Names) {
    match planned(rt, exact) {
        Err(refusal) => view_text::put_line(page, refusal),
        Ok(plan) => put_planned(page, plan, form_asked(rt), names),
    }
}

// Puts what a text comes to as it was given: through its exact text, or by itself where it has none.
fn put_tidy_plan(rt: HostRuntime, page: &mut Page, given: &[u8], names: &Names) {
    let mut exact = [0u8; office::LONGEST];
    match tidy::tidied(given, &mut exact) {
        Err(_) => put_asked(rt, page, given, names),
        Ok(k) => put_asked(rt, page, &exact[..k], names),
    }
}

fn main(rt: HostRuntime) -> io::Result<()> {
    let mut given = [0u8; tidy::LONGEST + 1];
    let n = lent_input::read_full(&mut rt.stdin(), &mut given)?;
    tidy_words::tell(&mut rt.stderr(), &given[..n], Kind::Task);
    let names = loosen::names_in(&given[..n]);
    let mut room = [0u8; view_text::LONGEST];
    let mut page = Page::new(&mut room);
    put_tidy_plan(rt, &mut page, &given[..n], &names);
    page.write_to(&mut rt.stdout())
}
