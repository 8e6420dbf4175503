// The program behind `eelbasket margin` and `eelbasket proposal`: what the tasks of a sheet on standard input come to at a step, which is the first
// word. Further words are the processors that are proposed for the tasks, one for each; without them both sides of the policy's test are put.
#![tactic(auto)]

use kinds::{Sheet, Table};
use std::{array, io};
use text::{Apart, Page};
use view_text::MOST_LOADS;

// The words before the first processor: the program's own name, and the step.
const BEFORE: usize = 2;

// The step that the first word names.
fn step_asked(rt: HostRuntime) -> u32 {
    let mut word = [0u8; 16];
    let n = lent_input::word(&rt, 1, &mut word);
    let Some((step, _)) = numeral::numeral_in(&word[..n]) else {
        return 0;
    };
    step
}

// The processor that a word names, and 0, which is none, where it names no number.
fn processor_asked(rt: HostRuntime, i: usize) -> u16 {
    let mut word = [0u8; 16];
    let n = lent_input::word(&rt, i, &mut word);
    office_sheet::setting_of(&word[..n]).unwrap_or(0)
}

// Both sides of the policy's test at a step, or why there is no margin.
fn put_margin(page: &mut Page, x: Sheet, step: u32) {
    match margin::margin_at(x.table, x.settings, step) {
        Err(refusal) => view_text::put_line(page, refusal),
        Ok(_) => shortfall::put_test(page, x.table, x.settings, step),
    }
}

// The loads of the processors under a proposal, or why it is none.
fn put_proposal(page: &mut Page, x: Sheet, step: u32, proposal: &[u16]) {
    let settings = x.settings;
    let mut loads = [0u32; MOST_LOADS];
    match proposal::check(x.table, settings, step, proposal, &mut loads) {
        Err(refusal) => view_text::put_line(page, refusal),
        Ok(()) => {
            writeln!(page, "the proposal fits at step {}", Apart(u64::from(step)));
            view_text::put_loads(page, settings.m, &loads);
        }
    }
}

// What a sheet comes to at a step, or why it cannot be read.
fn put_asked(rt: HostRuntime, page: &mut Page, input: &[u8]) {
    let reading = sheet::read(input);
    if let Err(refusal) = reading.verdict {
        view_text::put_line(page, refusal);
        return;
    }
    let step = step_asked(rt);
    let count = lent_input::word_count(&rt).saturating_sub(BEFORE);
    if count == 0 {
        put_margin(page, reading.sheet, step);
        return;
    }
    let proposed: [u16; Table::MOST_TASKS] = array::from_fn(|i| processor_asked(rt, i + BEFORE));
    let n = count.min(Table::MOST_TASKS);
    put_proposal(page, reading.sheet, step, &proposed[..n]);
}

fn main(rt: HostRuntime) -> io::Result<()> {
    let mut input = [0u8; sheet::LONGEST + 1];
    let n = lent_input::read_full(&mut rt.stdin(), &mut input)?;
    let mut room = [0u8; view_text::LONGEST];
    let mut page = Page::new(&mut room);
    put_asked(rt, &mut page, &input[..n]);
    page.write_to(&mut rt.stdout())
}
