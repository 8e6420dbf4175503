// The quick finder. Under edition 1 it looks at step 0, then at each distinct saturation step above 0 in rising order, until one passes; the
// step inside the last stretch comes by division. Under edition 2 it halves the range of steps. Contracts cite `specs/Search` and
// `specs/Handover`; the promise of `find` is `outcome false` of `outcome` with the looks of `specs/Looked`.
#![tactic(auto)]

ghost use Rattle.std.specs.Prelude.{false, ◌≡◌, ◌≤◌, ◌<◌, Some};
ghost use Rattle.kinds.specs.Answer.{handed};
ghost use Rattle.kinds.specs.Limits.{most_tasks};
ghost use Rattle.springs.specs.Spring.{saturations};
ghost use Rattle.springs.specs.Springs.{spring_in};
ghost use Rattle.springs.specs.Handover.{Springy, Workable, Empty, SumIs, Beside, StaysLow};
ghost use Rattle.policy.specs.Weighed.{weighed_at};
ghost use Rattle.policy.specs.Handover.{Light};
ghost use Rattle.quick_finder.specs.Search.{due_after, OneLook};
ghost use Rattle.outcome.specs.Plan.{found};
ghost use Rattle.outcome.specs.Handover.{Searchable};
ghost use Rattle.quick_finder.specs.Handover.{SearchEnds, SearchUnder, LookedSprung};
ghost use Rattle.quick_finder.specs.Looked.{MeetsLooked};

use ground::Ended;
use kinds::{Refusal, Settings, Table};
use policy::{Test, Total, Weights};
use springs::Springs;

// What the quick finder answers, and the looks that it made, which stand beside the answer since a refusal by 7 has looks too.
#[derive(Clone, Copy)]
pub struct Looked {
    pub answer: Result<u32, Refusal>,
    pub looks: u32,
}

// Where a search stands: the looks made, the step of the last, the step before it, whether the last one passed, and the sum of the
// shares at its step.
#[derive(Clone, Copy)]
pub struct Search {
    pub looks: u32,
    pub step: u32,
    pub from: u32,
    pub passed: bool,
    pub sum: u64,
}

// The periods and processors of the least passing step, written to the two lent outputs, or the refusal, which writes nothing.
pub fn find(table: Table, settings: Settings, periods: &mut [u32], processors: &mut [u16]) -> Looked
    ensures { MeetsLooked settings table.rows table.n periods.old processors.old result
        periods.new processors.new }
{
    let room = periods.len().min(processors.len());
    let mut springs = Springs::new(settings.notch);
    let looked = find_step(&table, settings, room, &mut springs);
    if let Ok(step) = looked.answer {
        outcome::grant(Ok(step), settings, &mut springs, periods, processors);
    }
    looked
}

// The answer, for outputs of which the shorter has so much room.
pub fn decide(table: Table, settings: Settings, room: usize) -> Result<u32, Refusal>
    ensures { handed result ≡ found false settings table.rows table.n room }
{
    let mut springs = Springs::new(settings.notch);
    find_step(&table, settings, room, &mut springs).answer
}

// The answer and its looks; the springs of the table are taken in. No look is made of a table that is not admitted.
fn find_step(table: &Table, settings: Settings, room: usize, springs: &mut Springs) -> Looked
    requires { Empty settings.notch springs.old }
    ensures { LookedSprung settings table.now.rows table.now.n room result.answer result.looks springs.new
        × (Workable springs.old → Workable springs.new) }
{
    if let Err(refusal) = admission::admit(table, settings, false, room, springs) {
        return Looked {
            answer: Err(refusal),
            looks: 0,
        };
    }
    let ended = search_under(settings, springs);
    Looked {
        answer: ended.step.ok_or(Refusal::NoStepPasses),
        looks: ended.looks,
    }
}

// The search of the settings' edition.
fn search_under(settings: Settings, springs: &mut Springs) -> Ended
    requires { Searchable settings springs.old }
    ensures { SearchUnder settings springs.old result × StaysLow springs.old springs.new × Beside springs.old springs.new }
{
    let asked = settings.policy;
    let test = Test {
        policy: asked.meant(),
        m: settings.m,
    };
    let w = test.weights(springs.n);
    if settings.tests_charge() {
        return halve::least_step(w, springs);
    }
    search_columns(w, springs)
}

// One look under edition 1: tests the policy at the step due, and raises the count by one.
fn look(w: Weights, springs: &Springs, before: Search, due: u32) -> Search
    requires { Light w × Springy springs.now × (before.looks ≤ most_tasks)
        × (Some due ≡ due_after (saturations (spring_in springs.now)) springs.now.n before) × (0 < before.looks → before.step < due) }
    ensures { OneLook (weighed_at w (spring_in springs.now) springs.now.n) (saturations (spring_in springs.now)) springs.now.n before result
        × SumIs (spring_in springs.now) springs.now.n result.step result.sum }
{
    let total = Total::at(springs, due);
    let passed = w.hold(total);
    Search {
        looks: before.looks + 1,
        step: due,
        from: before.step,
        passed,
        sum: total.sum,
    }
}

// The looks of edition 1, one after the other, and the division at the end.
fn search_columns(w: Weights, springs: &Springs) -> Ended
    requires { Light w × Springy springs.now }
    ensures { SearchEnds (weighed_at w (spring_in springs.now) springs.now.n) (saturations (spring_in springs.now)) springs.now.n result }
{
    let start = Search {
        looks: 0,
        step: 0,
        from: 0,
        passed: false,
        sum: 0,
    };
    let mut search = look(w, springs, start, 0);
    if search.passed {
        return Ended {
            step: Some(0),
            looks: search.looks,
        };
    }
    while let Some(due) = division::next_due(springs, search.step) {
        let sum = search.sum;
        search = look(w, springs, search, due);
        if search.passed {
            let step = division::divide(w, springs, search.from, search.step, sum);
            return Ended {
                step: Some(step),
                looks: search.looks,
            };
        }
    }
    Ended {
        step: None,
        looks: search.looks,
    }
}
