// Ask 4: the finder of jobs that need several cores, by the rules of `wide_task` for one of them. It halves the range of steps. The promise
// of `find` is `outcome` of `specs/Wide`.
#![tactic(auto)]

ghost use Rattle.std.specs.Prelude.{◌++◌, ◌≡◌, ◌≤◌, not, length, drop, position, All, IfOk, IfErr, Err};
ghost use Rattle.kinds.specs.Answer.{handed};
ghost use Rattle.kinds.specs.Limits.{most_tasks, most_processors};
ghost use Rattle.outcome.specs.Plan.{Meets};
ghost use Rattle.wide_task.specs.WideTask.{Good, is_good};
ghost use Rattle.wide_task.specs.Handover.{StepIs};
ghost use Rattle.wide_finder.specs.Table.{full_compression, cores_sum, passes_at, least_step, periods_at, core_counts_at};
ghost use Rattle.wide_finder.specs.Wide.{admission, found, outcome};
ghost use Rattle.wide_finder.specs.Handover.{SumIs, LetsIn};

use kinds::Refusal;
use rule::Job;
use wide_task::{WideTable, WideTask};

// The tasks of a table that is let in: at most the most, and all good.
#[derive(Clone, Copy)]
struct Admitted<'a> {
    rows: &'a [WideTask],
    ghost few: { length rows.now ≤ most_tasks },
    ghost good: { All Good rows.now },
}

impl Admitted<'_> {
    // Document 01: "Full compression K: the greatest saturation step, 0 if there is none."
    fn full_compression(&self) -> u32
        ensures { StepIs (full_compression self.now.rows.now (length self.now.rows.now)) result }
    {
        self.rows
            .iter()
            .map(|task| task.saturation())
            .max()
            .unwrap_or(0)
    }

    // The cores that the tasks need at step k.
    fn cores_sum(&self, k: u32) -> u64
        ensures { SumIs self.now.rows.now (length self.now.rows.now) k result }
    {
        self.rows
            .iter()
            .map(|task| wide_task::cores_at(*task, k))
            .sum()
    }

    // Ask 4: "A table of such tasks passes at a step when the cores add up to at most m".
    fn passes_at(&self, m: u16, k: u32) -> bool
        ensures { result ≡ passes_at m self.now.rows.now (length self.now.rows.now) k }
    {
        self.cores_sum(k) <= u64::from(m)
    }

    // The least step from 0 to full compression that passes. Passing stays, so the range is halved.
    fn least_step(&self, m: u16) -> Option<u32>
        ensures { result ≡ least_step m self.now.rows.now (length self.now.rows.now) }
    {
        ground::least_passing(self.full_compression(), |k| self.passes_at(m, k))
    }

    // Writes the period of each task at step k, and nothing past them: by index, since after a `zip` with `iter_mut` no entry is known.
    fn write_periods(&self, k: u32, out: &mut [u32])
        requires { length self.now.rows.now ≤ length out.old }
        ensures { out.new ≡ periods_at self.now.rows.now (length self.now.rows.now) k ++ drop (length self.now.rows.now) out.old }
    {
        for (i, task) in self.rows.iter().enumerate() {
            out[i] = task.period_at(k);
        }
    }

    // Writes the cores that each task needs at step k, which fit the processors there are, and nothing past them.
    fn write_cores(&self, k: u32, out: &mut [u16])
        requires room { length self.now.rows.now ≤ length out.old }
        requires fit { cores_sum self.now.rows.now (length self.now.rows.now) k ≤ most_processors }
        ensures { out.new ≡ core_counts_at self.now.rows.now (length self.now.rows.now) k ++ drop (length self.now.rows.now) out.old }
    {
        for (i, task) in self.rows.iter().enumerate() {
            out[i] = wide_task::cores_at(*task, k) as u16;
        }
    }
}

// The first record that is not good.
fn first_bad(rows: &[WideTask]) -> Option<usize>
    ensures { result ≡ position (λ task. not (is_good task)) rows.now }
{
    rows.iter().position(|task| !task.good())
}

// Refusals 2, 3, 5 and 6, for outputs of which the shorter has so much room.
fn admit(table: &WideTable, m: u16, room: usize) -> Result<Admitted<'_>, Refusal>
    ensures admits { IfOk result (λ admitted. LetsIn m table.now room admitted.rows.now) }
    ensures refuses { IfErr result (λ refusal. admission m table.now.rows table.now.n room ≡ Err refusal) }
{
    let n = table.n;
    admission::gate(admission::misset(m), n)?;
    admission::roomy(n, room)?;
    let rows = &table.rows[..n];
    if let Some(bad) = first_bad(rows) {
        return Err(Refusal::BadRecord(bad));
    }
    Ok(Admitted { rows })
}

// The answer, for outputs of which the shorter has so much room.
pub fn decide(table: WideTable, m: u16, room: usize) -> Result<u32, Refusal>
    ensures { handed result ≡ found m table.rows table.n room }
{
    let admitted = admit(&table, m, room)?;
    admitted.least_step(m).ok_or(Refusal::NoStepPasses)
}

// The periods and core counts of the least passing step, written to the two lent outputs, or the refusal, which writes nothing.
pub fn find(
    table: WideTable,
    m: u16,
    periods: &mut [u32],
    cores: &mut [u16],
) -> Result<u32, Refusal>
    ensures { Meets (outcome m table.rows table.n periods.old cores.old) result periods.new cores.new }
{
    let admitted = admit(&table, m, periods.len().min(cores.len()))?;
    let k = admitted.least_step(m).ok_or(Refusal::NoStepPasses)?;
    admitted.write_periods(k, periods);
    admitted.write_cores(k, cores);
    Ok(k)
}
