// What an accepted plan grants: each task's period and processor, written to the two lent outputs. Contracts cite `specs/Plan`, which
// settles a finder's call whole, and `specs/Handover`.
#![tactic(auto)]

ghost use Rattle.std.specs.Prelude.{◌++◌, ◌≡◌, ℕ, ◌≤◌, length, get_or, drop};
ghost use Rattle.ground.specs.Folds.{list_to};
ghost use Rattle.kinds.specs.Answer.{handed};
ghost use Rattle.kinds.specs.Policy.{meant};
ghost use Rattle.springs.specs.Spring.{periods_on, loads_on};
ghost use Rattle.springs.specs.Springs.{spring_in};
ghost use Rattle.springs.specs.Handover.{Chargeable, Beside, StaysLow};
ghost use Rattle.outcome.specs.Plan.{processor_on};
ghost use Rattle.outcome.specs.Handover.{Placeable, MayGrant, Leaves};

use kinds::{Refusal, Settings, Table};
use springs::Springs;

// Writes the period of step k of each task on a notch, and nothing past them.
fn write_periods(notch: u16, springs: &Springs, k: u32, out: &mut [u32])
    requires { (springs.now.n ≤ length out.old) × Chargeable notch springs.now }
    ensures { out.new ≡ list_to (periods_on notch (spring_in springs.now) k) springs.now.n
        ++ drop springs.now.n out.old }
{
    // Over the numbers: each is read in the springs and written in the output.
    for i in 0..springs.n {
        out[i] = springs.spring(i).period(notch, k);
    }
}

// The processor of each task, which pass at step k: 1 to m under policy 4, else 0.
fn processors_at(settings: Settings, springs: &mut Springs, k: u32) -> [u16; Table::MOST_TASKS]
    requires { Placeable settings springs.old k }
    ensures { (list_to (λ (i : ℕ). get_or result i 0) springs.old.n
        ≡ list_to (processor_on (meant settings.policy) settings.m (loads_on settings (spring_in springs.old) k)) springs.old.n)
        × StaysLow springs.old springs.new × Beside springs.old springs.new }
{
    let asked = settings.policy;
    let policy = asked.meant();
    if policy.is_first_fit() {
        springs.load(settings, k);
        let trial = fit::first_fit(&springs.loads, springs.n, settings.m as usize);
        return trial.processors;
    }
    [0u16; Table::MOST_TASKS]
}

// Writes what an accepted step grants to the two lent outputs, worked out of the springs; a refusal writes nothing.
pub fn grant(
    answer: Result<u32, Refusal>,
    settings: Settings,
    springs: &mut Springs,
    periods: &mut [u32],
    processors: &mut [u16],
)
    requires { MayGrant answer settings springs.old (length periods.old) (length processors.old) }
    ensures { Leaves (handed answer) settings (spring_in springs.old) springs.old.n periods.old processors.old
        periods.new processors.new
        × StaysLow springs.old springs.new × Beside springs.old springs.new }
{
    let Ok(step) = answer else {
        return;
    };
    let n = springs.n;
    write_periods(settings.notch, springs, step, periods);
    let placed = processors_at(settings, springs, step);
    processors[..n].copy_from_slice(&placed[..n]);
}
