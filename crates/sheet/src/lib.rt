// Reading a station sheet: its sections on a slice and a place, by the rows of `row`, and above them the `Reader`, which holds both. Callers
// use `read`. Contracts cite `specs/Sections`, `specs/Reading` and `specs/Handover`.
#![tactic(auto)]

ghost use Rattle.std.specs.Prelude.{◌≡◌, ◌≤◌, IfOk, IfErr, Ok, Err, length};
ghost use Rattle.kinds.specs.Limits.{most_settings, most_tasks};
ghost use Rattle.sheet.specs.Sections.{settings_place, records_place, results_place, end_place, longest_sheet, settings_fit, results_fit};
ghost use Rattle.sheet.specs.Reading.{no_sheet, handed_sheet, read_rows, read_sheet, handed_reading};
ghost use Rattle.sheet.specs.Handover.{Begins, HeadTells};

pub mod row;

use kinds::{Granted, Refusal, Results, Settings, Sheet, Table, Task};

// A verdict, and the sheet: that of zeros where it was refused. Document 01: "A refused reading hands back a sheet of zeros", which a
// Result has no place for.
#[derive(Clone, Copy)]
pub struct Reading {
    pub verdict: Result<(), Refusal>,
    pub sheet: Sheet,
}

impl Reading {
    // The sheet that was read, which is lent and not copied, or the refusal.
    pub fn accepted(&self) -> Result<&Sheet, Refusal>
        ensures ok { IfOk result (λ x. (self.now.verdict ≡ Ok tt) × (x.now ≡ self.now.sheet)) }
        ensures err { IfErr result (λ q. self.now.verdict ≡ Err q) }
    {
        self.verdict?;
        Ok(&self.sheet)
    }
}

// How many bytes a count, a setting, a task record and a result take.
const COUNT: usize = 2;

const SETTING: usize = 2;

const TASK: usize = 16;

const GRANTED: usize = 6;

// How many bytes the longest sheet has.
pub const LONGEST: usize = COUNT
    + SETTING * Settings::MOST
    + COUNT
    + TASK * Table::MOST_TASKS
    + COUNT
    + GRANTED * Table::MOST_TASKS;

// Where the task records of a sheet with so many settings start.
pub fn records_place(settings: usize) -> usize
    requires { settings ≤ most_settings }
    ensures { result ≡ records_place settings }
{
    COUNT + SETTING * settings + COUNT
}

// Where the result count of a sheet with so many settings and n tasks stands.
pub fn results_place(settings: usize, n: usize) -> usize
    requires { (settings ≤ most_settings) × (n ≤ most_tasks) }
    ensures { result ≡ results_place settings n }
{
    records_place(settings) + TASK * n
}

// How many bytes a sheet with so many settings, n tasks and r results is long.
pub fn end_place(settings: usize, n: usize, r: usize) -> usize
    requires { (settings ≤ most_settings) × ((n ≤ most_tasks) × (r ≤ most_tasks)) }
    ensures { result ≡ end_place settings n r }
{
    results_place(settings, n) + COUNT + GRANTED * r
}

// Ask 2, 9: whether a sheet may have so many settings.
#[tactic(auto, unfolding(crate::specs::Sections::settings_fit))]
pub fn settings_fit(settings: usize) -> bool
    ensures { result ≡ settings_fit settings }
{
    (Settings::FEWEST..=Settings::MOST).contains(&settings)
}

// Document 01, 10: whether a sheet with n tasks may have r results.
#[tactic(auto, unfolding(crate::specs::Sections::results_fit))]
pub fn results_fit(r: usize, n: usize) -> bool
    ensures { result ≡ results_fit r n }
{
    r == 0 || r == n
}

// Document 01: "a sheet of zeros (policy: the further choice 0)"; no number is filled in.
#[tactic(auto, unfolding(crate::specs::Reading::no_sheet))]
pub fn no_sheet() -> Sheet
    ensures { result ≡ no_sheet }
{
    Sheet {
        count: 0,
        settings: Settings::from([0; Settings::MOST]),
        table: Table {
            rows: [Task::NONE; Table::MOST_TASKS],
            n: 0,
        },
        results: Results {
            rows: [Granted::NONE; Table::MOST_TASKS],
            n: 0,
        },
    }
}

// The head of a sheet: its settings count, its settings and its task count.
#[derive(Clone, Copy)]
struct Head {
    count: usize,
    settings: Settings,
    n: usize,
}

// The settings section and the task count, from the place where a sheet starts. Document 01: "a count is judged as soon as its two bytes
// are there."
fn read_head(s: &[u8], start: usize) -> Result<Head, Refusal>
    requires { start ≡ settings_place }
    ensures { HeadTells s.now result }
{
    let Some((number, first)) = field::read::<u16>(s, start) else {
        return Err(Refusal::SheetEnds(s.len()));
    };
    let count = usize::from(number);
    if !settings_fit(count) {
        return Err(Refusal::WrongSettingsCount);
    }
    let mut numbers = Settings::FILL_INS;
    let Some(at_tasks) = row::read_section(s, first, &mut numbers[..count]) else {
        return Err(Refusal::SheetEnds(s.len()));
    };
    let Some((tasks, _)) = field::read::<u16>(s, at_tasks) else {
        return Err(Refusal::SheetEnds(s.len()));
    };
    let n = usize::from(tasks);
    if Table::MOST_TASKS < n {
        return Err(Refusal::TooManyTasks(at_tasks));
    }
    let settings = Settings::from(numbers);
    Ok(Head { count, settings, n })
}

// The rows of a sheet whose head was read: its tasks, its results, and nothing after them.
fn read_rows(s: &[u8], head: Head, from: usize) -> Result<Sheet, Refusal>
    requires { Begins s.now head from }
    ensures { handed_sheet result ≡ read_rows s.now }
{
    let Head { count, settings, n } = head;
    let mut tasks = [Task::NONE; Table::MOST_TASKS];
    let Some(at) = row::read_section(s, from, &mut tasks[..n]) else {
        return Err(Refusal::SheetEnds(s.len()));
    };
    let Some((number, first)) = field::read::<u16>(s, at) else {
        return Err(Refusal::SheetEnds(s.len()));
    };
    let r = usize::from(number);
    if !results_fit(r, n) {
        return Err(Refusal::WrongResultCount(at));
    }
    let mut granted = [Granted::NONE; Table::MOST_TASKS];
    let Some(end) = row::read_section(s, first, &mut granted[..r]) else {
        return Err(Refusal::SheetEnds(s.len()));
    };
    if end < s.len() {
        return Err(Refusal::BytesAfterLast(end));
    }
    Ok(Sheet {
        count,
        settings,
        table: Table { rows: tasks, n },
        results: Results {
            rows: granted,
            n: r,
        },
    })
}

// Document 01: "a reader that holds the lent sheet and its place in it."
#[derive(Clone, Copy)]
pub struct Reader<'a> {
    pub sheet: &'a [u8],
    pub at: usize,
}

// A reader at the front of a lent sheet.
pub fn open<'a>(sheet: &'a [u8]) -> Reader<'a>
    ensures { (result.sheet ≡ sheet.entry) × (result.at ≡ 0) }
{
    Reader { sheet, at: 0 }
}

// The reader moved on to a place.
pub fn moved<'a>(reader: Reader<'a>, at: usize) -> Reader<'a>
    ensures { (result.sheet ≡ reader.entry.sheet) × (result.at ≡ at) }
{
    Reader {
        sheet: reader.sheet,
        at,
    }
}

// What a reader at the front of a sheet reads: its head, and from the place after the head on its rows.
fn read_on<'a>(reader: Reader<'a>) -> Result<Sheet, Refusal>
    requires { reader.at ≡ settings_place }
    ensures { handed_sheet result ≡ read_sheet reader.entry.sheet.now }
{
    let head = read_head(reader.sheet, reader.at)?;
    let reader = moved(reader, records_place(head.count));
    read_rows(reader.sheet, head, reader.at)
}

// Reads a station sheet.
pub fn read(bytes: &[u8]) -> Reading
    ensures { handed_reading result ≡ read_sheet bytes.now }
{
    match read_on(open(bytes)) {
        Ok(sheet) => Reading {
            verdict: Ok(()),
            sheet,
        },
        Err(refusal) => Reading {
            verdict: Err(refusal),
            sheet: no_sheet(),
        },
    }
}

// The longest sheet that definitions name is the one that the code names.
pub fn limits()
    ensures { LONGEST ≡ longest_sheet }
{}
