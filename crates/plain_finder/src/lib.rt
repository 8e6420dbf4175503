// The plain finder: it tests the policy at step 0, 1, 2, … to full compression, on the loads of the settings' edition. The springs are worked
// out once for a call, and under edition 1 the shares are let down from step to step. Contracts cite `specs/Handover`; the promise of `find` is
// `outcome true` of `outcome`.
#![tactic(auto)]

ghost use Rattle.std.specs.Prelude.{true, ◌≡◌};
ghost use Rattle.kinds.specs.Answer.{handed};
ghost use Rattle.kinds.specs.Policy.{meant};
ghost use Rattle.springs.specs.Spring.{shares_on, charges_on, loads_on};
ghost use Rattle.springs.specs.Springs.{spring_in};
ghost use Rattle.springs.specs.Handover.{Springy, Chargeable, Workable, Empty, StaysLow};
ghost use Rattle.outcome.specs.Plan.{found, outcome, Meets};
ghost use Rattle.outcome.specs.Handover.{Searchable, FoundSprung};
ghost use Rattle.plain_finder.specs.Handover.{Searched};

use kinds::{Refusal, Settings, Table};
use policy::Test;
use springs::Springs;

// The periods and processors of the least passing step, written to the two lent outputs, or the refusal, which writes nothing.
pub fn find(
    table: Table,
    settings: Settings,
    periods: &mut [u32],
    processors: &mut [u16],
) -> Result<u32, Refusal>
    ensures { Meets (outcome true settings table.rows table.n periods.old processors.old) result
        periods.new processors.new }
{
    let room = periods.len().min(processors.len());
    let mut springs = Springs::new(settings.notch);
    let step = find_step(&table, settings, room, &mut springs)?;
    outcome::grant(Ok(step), settings, &mut springs, periods, processors);
    Ok(step)
}

// The answer, for outputs of which the shorter has so much room.
pub fn decide(table: Table, settings: Settings, room: usize) -> Result<u32, Refusal>
    ensures { handed result ≡ found true settings table.rows table.n room }
{
    let mut springs = Springs::new(settings.notch);
    find_step(&table, settings, room, &mut springs)
}

// The least passing step of a table, whose springs are taken in.
fn find_step(
    table: &Table,
    settings: Settings,
    room: usize,
    springs: &mut Springs,
) -> Result<u32, Refusal>
    requires { Empty settings.notch springs.old }
    ensures { FoundSprung true settings table.now.rows table.now.n room result springs.new
        × (Workable springs.old → Workable springs.new) }
{
    admission::admit(table, settings, true, room, springs)?;
    least_step(settings, springs).ok_or(Refusal::NoStepPasses)
}

// The least step from 0 to full compression that passes on the loads of the settings' edition.
fn least_step(settings: Settings, springs: &mut Springs) -> Option<u32>
    requires { Searchable settings springs.old }
    ensures { Searched (meant settings.policy) settings.m (loads_on settings (spring_in springs.old)) result
        springs.old springs.new × StaysLow springs.old springs.new }
{
    let asked = settings.policy;
    let test = Test {
        policy: asked.meant(),
        m: settings.m,
    };
    if settings.tests_charge() {
        return least_charged(test, springs);
    }
    least_shared(test, springs)
}

// Edition 2: the least step that passes on the charges.
fn least_charged(test: Test, springs: &mut Springs) -> Option<u32>
    requires { Chargeable springs.old.notch springs.old }
    ensures { Searched test.policy test.m (charges_on springs.old.notch (spring_in springs.old)) result
        springs.old springs.new × StaysLow springs.old springs.new }
{
    let full = springs.full_compression();
    for step in 0..=full {
        if test.passes_charged(springs, step) {
            return Some(step);
        }
    }
    None
}

// Edition 1: the least step that passes on the shares, which are let down from step to step. A walk of its own: edition 2 charges each step anew,
// and carries nothing.
fn least_shared(test: Test, springs: &mut Springs) -> Option<u32>
    requires { Springy springs.old }
    ensures { Searched test.policy test.m (shares_on (spring_in springs.old)) result springs.old springs.new
        × StaysLow springs.old springs.new }
{
    let full = springs.full_compression();
    let most = test.most_sum(springs.n);
    let mut sum = springs.share_sum(0);
    for k in 0..=full {
        if test.passes_summed(springs, sum, most) {
            return Some(k);
        }
        sum = springs.let_down();
    }
    None
}
