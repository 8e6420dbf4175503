// What would relieve a table: one processor more, or one task fewer, each with the least step that passes then, and that of the table as it
// stands. Contracts cite `specs/Relief`.
#![tactic(auto)]

ghost use Rattle.std.specs.Prelude.{true, ◌++◌, ◌≡◌, ◌≤◌, ◌<◌, length, drop};
ghost use Rattle.ground.specs.Folds.{list_to};
ghost use Rattle.kinds.specs.Answer.{handed, step_of};
ghost use Rattle.kinds.specs.Limits.{most_tasks, most_processors};
ghost use Rattle.outcome.specs.Plan.{found};
ghost use Rattle.relief.specs.Relief.{told_step, least_told, one_more, least_without, admitted_by, relieved, MeetsRelief};

use kinds::{Refusal, Settings, Table};

// The least step of a table and that with one processor more, told as numbers, as they cross to C: 0 for none, else the step + 1.
#[derive(Clone, Copy)]
pub struct Relief {
    pub least: u32,
    pub more: u32,
}

impl Relief {
    // What stands for it where a call is refused.
    pub const NONE: Relief = Relief { least: 0, more: 0 };
}

// What the plain finder answers for an output with so much room, by the quick finder's search wherever that serves the policy.
fn decide(table: Table, settings: Settings, room: usize) -> Result<u32, Refusal>
    ensures { handed result ≡ found true settings table.rows table.n room }
{
    let asked = settings.policy;
    let policy = asked.meant();
    if policy.is_first_fit() {
        return plain_finder::decide(table, settings, room);
    }
    quick_finder::decide(table, settings, room)
}

// The step of an answer as a number: 0 for a refusal, else the step + 1.
fn tell(answer: Result<u32, Refusal>) -> u32
    requires { step_of answer < 4294967295 }
    ensures { result ≡ told_step (handed answer) }
{
    answer.map_or(0, |step| step + 1)
}

// The least step of a table, told as a number.
fn least_told(table: Table, settings: Settings) -> u32
    ensures { result ≡ least_told settings table.rows table.n }
{
    tell(decide(table, settings, table.n))
}

// The same station with one processor more.
fn one_more(settings: Settings) -> Settings
    requires { settings.m ≤ most_processors }
    ensures { result ≡ one_more settings }
{
    let policy = settings.policy;
    Settings::new(
        policy,
        settings.m + 1,
        settings.swap,
        settings.notch,
        settings.edition,
    )
}

// The least step of a table without task i, told as a number.
fn least_without(table: Table, settings: Settings, i: usize) -> u32
    requires { (table.n ≤ most_tasks) × (i < table.n) }
    ensures { result ≡ least_without settings table.rows table.n i }
{
    let rest = keep::without(table, i, table.n - 1);
    least_told(rest, settings)
}

// Writes for each task the least step of the table without it, and nothing past them.
fn write_without(table: Table, settings: Settings, out: &mut [u32])
    requires { (table.n ≤ most_tasks) × (table.n ≤ length out.old) }
    ensures { out.new ≡ list_to (least_without settings table.rows table.n) table.n ++ drop table.n out.old }
{
    let n = table.n;
    // Over the numbers: each is a task that is left out, and an entry that is written.
    for i in 0..n {
        out[i] = least_without(table, settings, i);
    }
}

// Whether an answer comes of an admitted table: that no step passes is said of such a one only.
fn admitted(answer: Result<u32, Refusal>) -> Result<(), Refusal>
    ensures { result ≡ admitted_by answer }
{
    match answer {
        Ok(_) | Err(Refusal::NoStepPasses) => Ok(()),
        Err(refusal) => Err(refusal),
    }
}

// The least step of a table, that with one processor more, and for each task that without it, which is written to the lent output; or the
// refusal, which tells and writes nothing.
pub fn relief_of(table: Table, settings: Settings, without: &mut [u32]) -> Result<Relief, Refusal>
    ensures { MeetsRelief (relieved settings table.rows table.n without.old) result without.new }
{
    let answer = decide(table, settings, without.len());
    admitted(answer)?;
    let least = tell(answer);
    let more = least_told(table, one_more(settings));
    write_without(table, settings, without);
    Ok(Relief { least, more })
}
