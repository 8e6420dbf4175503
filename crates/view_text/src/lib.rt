// What people read of a station sheet, put on a page: its settings, its tasks and their plan, and what that leaves free, or why it is refused. All
// of it comes from proved calls: the reader, the filling, the margin and both checkers. The text is tested and not promised.
#![tactic(auto)]

use fill::SheetPlan;
use kinds::{Policy, Refusal, Settings, Share, Sheet};
use refusal_words::{Because, Line, Sentence};
use task_names::Names;
use text::{Apart, Gauge, Page, Percent};

// Room for every view: 32 tasks, 16 processors and 16 lines besides, of 80 columns and a name's further bytes.
pub const LONGEST: usize = 6_400;

// What is much to leave free: a twentieth of a processor.
const MUCH: u64 = 50_000;

// A load for each of the most processors.
pub const MOST_LOADS: usize = Settings::MOST_PROCESSORS as usize;

// The load of each of so many processors.
pub fn put_loads(page: &mut Page, processors: u16, loads: &[u32; MOST_LOADS]) {
    writeln!(page);
    for (processor, load) in (1..=processors).zip(loads) {
        let value = *load;
        let most = Share::SCALE as u32;
        let percent = Percent(u64::from(value));
        writeln!(
            page,
            "processor {processor:2} {percent:8.4}% {}",
            Gauge { value, most }
        );
    }
}

// What the margin leaves free. Where a step more left much of a processor free, smaller steps would not.
fn put_free(page: &mut Page, parts: u64, step: u32) {
    let coarse = if 0 < step && MUCH <= parts {
        ": the steps are coarse; a smaller E makes them finer"
    } else {
        ""
    };
    writeln!(page, "\n{:.1}% of a processor free{coarse}", Percent(parts));
}

// Which kernel a pooled plan on more than one processor is for: global EDF does not carry it (`pooled-late` of `met`).
fn put_kernel(page: &mut Page, policy: Policy, m: u16) {
    if policy == Policy::Pooled && 1 < m {
        writeln!(
            page,
            "for a fluid kernel: global EDF may miss deadlines of this plan"
        );
    }
}

// What a plan leaves free: by processor under first fit, and otherwise the margin.
fn put_room(page: &mut Page, x: Sheet, step: u32) {
    let settings = x.settings;
    let policy = settings.policy;
    let asked = policy.meant();
    if !asked.is_first_fit() {
        let margin = margin::margin_at(x.table, settings, step);
        put_free(page, margin.map_or(0, |parts| parts.max(0) as u64), step);
        put_kernel(page, asked, settings.m);
        return;
    }
    let processors = x.results.rows.map(|granted| granted.processor);
    let mut loads = [0u32; MOST_LOADS];
    if proposal::check(x.table, settings, step, &processors, &mut loads).is_ok() {
        put_loads(page, settings.m, &loads);
    }
}

// A sheet that the plain finder refuses: why, by how much the tasks do not fit where no step passes, and what stands there.
fn put_refused(page: &mut Page, refusal: Refusal, x: Sheet, names: &Names) {
    let Settings { swap, notch, .. } = x.settings;
    let line = Line::of(refusal, &x.table.rows, |task| {
        reason::reason_of(task, swap, notch).map(Because)
    });
    writeln!(page, "{line}");
    if refusal == Refusal::NoStepPasses {
        shortfall::put_shortfall(page, x.table, x.settings, names);
    }
    writeln!(page);
    view_table::put_settings(page, x.settings);
    view_table::put_table(page, x, names, 0, false);
}

// A sheet with its plan at a step.
fn put_accepted(page: &mut Page, step: u32, x: Sheet, names: &Names) {
    view_table::put_settings(page, x.settings);
    writeln!(page, "the tasks fit at step {}", Apart(u64::from(step)));
    view_table::put_table(page, x, names, step, true);
    put_room(page, x, step);
}

// What is to be read of a sheet that was filled in: its plan with the names of its tasks, or why it has none.
pub fn put_plan(page: &mut Page, plan: SheetPlan, names: &Names) {
    let x = plan.sheet;
    match plan.answer {
        Err(refusal) => put_refused(page, refusal, x, names),
        Ok(step) => put_accepted(page, step, x, names),
    }
}

// Whether the results that stand in a sheet are ours; nothing of one that is refused before that is asked.
fn put_stored(page: &mut Page, verdict: Result<(), Refusal>) {
    match verdict {
        Ok(()) => writeln!(page, "stored results: ours"),
        Err(Refusal::NoResults) => writeln!(page, "stored results: none"),
        Err(Refusal::WrongResult(place)) => {
            let sentence = Sentence(Refusal::WrongResult(place));
            writeln!(page, "stored results: not ours; {sentence}")
        }
        Err(_) => (),
    }
}

// One refusal, with nothing beside it.
pub fn put_line(page: &mut Page, refusal: Refusal) {
    writeln!(page, "{}", Line::alone(refusal));
}

// The view of what was read.
pub fn view(page: &mut Page, input: &[u8]) {
    let reading = sheet::read(input);
    if let Err(refusal) = reading.verdict {
        put_line(page, refusal);
        return;
    }
    let x = reading.sheet;
    let plan = fill::fill_sheet(x);
    put_plan(page, plan, &Names::NONE);
    put_stored(page, filled_sheet::check_plan(x, plan));
}
