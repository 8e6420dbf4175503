// The change-over between the standing and the proposed sheet. Contracts cite `specs/ChangeOver`.
#![tactic(auto)]

ghost use Rattle.std.specs.Prelude.{◌≡◌, ◌≤◌};
ghost use Rattle.kinds.specs.Limits.{most_settings, most_tasks};
ghost use Rattle.change_over.specs.ChangeOver.{section_of, tasks_part, change_over, IsPart};

// The two lent sheets.
#[derive(Clone, Copy)]
pub enum Which {
    Standing,
    Proposed,
}

// A part of one of them: from which place on, and how many bytes.
#[derive(Clone, Copy)]
pub struct Part {
    pub which: Which,
    pub from: usize,
    pub size: usize,
}

// How many settings and tasks a sheet has that reads and that the plain finder accepts, asked for outputs that are just long enough.
fn section_of(bytes: &[u8]) -> Option<(usize, usize)>
    ensures { result ≡ section_of bytes.now }
{
    let reading = sheet::read(bytes);
    let x = reading.accepted().ok()?;
    let n = x.table.n;
    plain_finder::decide(x.table, x.settings, n).ok()?;
    Some((x.count, n))
}

// The task section of a sheet with so many settings and n tasks.
fn tasks_of(which: Which, settings: usize, n: usize) -> Part
    requires { (settings ≤ most_settings) × (n ≤ most_tasks) }
    ensures { result ≡ tasks_part which settings n }
{
    let from = sheet::records_place(settings);
    let size = sheet::results_place(settings, n) - from;
    Part { which, from, size }
}

// The task section of the proposed sheet, else that of the standing one, else the empty front of the standing one.
pub fn part_of(standing: &[u8], proposed: &[u8]) -> Part
    ensures { result ≡ change_over standing.now proposed.now }
{
    if let Some((settings, n)) = section_of(proposed) {
        return tasks_of(Which::Proposed, settings, n);
    }
    if let Some((settings, n)) = section_of(standing) {
        return tasks_of(Which::Standing, settings, n);
    }
    Part {
        which: Which::Standing,
        from: 0,
        size: 0,
    }
}

// That part itself, of the sheet that was lent and not a copy.
pub fn change_over<'a>(standing: &'a [u8], proposed: &'a [u8]) -> &'a [u8]
    ensures { IsPart (change_over standing.now proposed.now)
        standing.now proposed.now standing.entry.ref_ptr proposed.entry.ref_ptr result.now result.ref_ptr }
{
    let Part { which, from, size } = part_of(standing, proposed);
    let end = from + size;
    match which {
        Which::Standing => &standing[from..end],
        Which::Proposed => &proposed[from..end],
    }
}
