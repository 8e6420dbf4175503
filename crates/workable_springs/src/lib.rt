// Springs in another crate, whose type says that every call may be made on them, and the calls that ask for a part of that: none asks for more, and
// each leaves springs for the next.
#![tactic(auto)]

ghost use Rattle.std.specs.Prelude.{ℕ, true, ◌≡◌, ◌≤◌, ◌<◌, length, get_or};
ghost use Rattle.ground.specs.Folds.{sum_to};
ghost use Rattle.kinds.specs.Answer.{accepted};
ghost use Rattle.kinds.specs.Limits.{most_tasks, most_processors};
ghost use Rattle.kinds.specs.Policy.{is_weighed, meant};
ghost use Rattle.springs.specs.Spring.{let_down, shares_on, periods_on, charges_on, loads_on, saturations};
ghost use Rattle.springs.specs.Springs.{spring_in, full_in};
ghost use Rattle.springs.specs.Handover.{Workable, Empty, Beside, Loaded, Summed, SumIs, TakenIn};
ghost use Rattle.fit.specs.Fit.{load_in};
ghost use Rattle.policy.specs.Sides.{most_sum, margin_of};
ghost use Rattle.policy.specs.Passing.{passes, passes_at};
ghost use Rattle.policy.specs.Weighed.{charged_at};
ghost use Rattle.policy.specs.Handover.{Light, TotalIs};
ghost use Rattle.halve.specs.Halves.{HalvingEnds};
ghost use Rattle.division.specs.Next.{Next, next_to};
ghost use Rattle.division.specs.Division.{divided};
ghost use Rattle.order.specs.Index.{index_by};
ghost use Rattle.order.specs.Handover.{elastic_in, step_in};
ghost use Rattle.admission.specs.Handover.{AdmittedSprung};
ghost use Rattle.outcome.specs.Handover.{Leaves};
ghost use Rattle.proposal.specs.Handover.{AdmittedLoaded};

use ground::Ended;
use kinds::{Index, Refusal, Settings, Table};
use policy::{Test, Total, Weights};
use springs::Springs;

// Springs on which every call may be made.
#[derive(Clone, Copy)]
struct Held {
    springs: Springs,
    ghost work: { Workable springs },
}

impl Held {
    fn new(notch: u16) -> Held
        ensures { Empty notch result.springs }
    {
        Held {
            springs: Springs::new(notch),
        }
    }

    fn take_in(&mut self, table: Table, swap: u16) -> Result<(), usize>
        requires { (table.n ≤ most_tasks) × (1 ≤ self.old.springs.notch) }
        ensures { TakenIn swap self.old.springs.notch table.rows table.n result self.new.springs }
    {
        let notch = self.springs.notch;
        self.springs.take_in(table, swap, notch)
    }

    fn share_sum(&mut self, k: u32) -> u64
        ensures { Summed (shares_on (spring_in self.old.springs) k) self.old.springs self.new.springs result }
    {
        self.springs.share_sum(k)
    }

    fn let_down(&mut self) -> u64
        ensures { Summed (λ (i : ℕ). let_down (spring_in self.old.springs i) (get_or self.old.springs.loads i 0))
            self.old.springs self.new.springs result }
    {
        self.springs.let_down()
    }

    fn charge_sum(&mut self, k: u32) -> u64
        ensures { Summed (charges_on self.old.springs.notch (spring_in self.old.springs) k) self.old.springs self.new.springs result }
    {
        self.springs.charge_sum(k)
    }

    fn load(&mut self, settings: Settings, k: u32)
        requires { settings.notch ≡ self.old.springs.notch }
        ensures { Loaded (loads_on settings (spring_in self.old.springs) k) self.old.springs.n self.old.springs self.new.springs }
    {
        self.springs.load(settings, k)
    }

    fn period(&self, i: usize, k: u32) -> u32
        requires { i < self.now.springs.n }
        ensures { result ≡ periods_on self.now.springs.notch (spring_in self.now.springs) k i }
    {
        self.springs.period(i, k)
    }

    fn total(&self) -> Total
        ensures { TotalIs (load_in self.now.springs.loads) self.now.springs.n result.sum result.max }
    {
        Total::of(&self.springs)
    }

    fn total_at(&self, k: u32) -> Total
        ensures { TotalIs (shares_on (spring_in self.now.springs) k) self.now.springs.n result.sum result.max }
    {
        Total::at(&self.springs, k)
    }

    fn hold_charged(&mut self, w: Weights, k: u32) -> bool
        requires { Light w }
        ensures { (result ≡ charged_at w self.old.springs.notch (spring_in self.old.springs) self.old.springs.n k)
            × Beside self.old.springs self.new.springs }
    {
        w.hold_charged(&mut self.springs, k)
    }

    fn passes(&self, test: Test) -> bool
        ensures { result ≡ passes test.policy test.m (load_in self.now.springs.loads) self.now.springs.n }
    {
        test.passes(&self.springs)
    }

    fn passes_summed(&self, test: Test, sum: u64, most: u64) -> bool
        requires { (sum ≡ sum_to (load_in self.now.springs.loads) self.now.springs.n)
            × (most ≡ most_sum test.policy test.m self.now.springs.n) }
        ensures { result ≡ passes test.policy test.m (load_in self.now.springs.loads) self.now.springs.n }
    {
        test.passes_summed(&self.springs, sum, most)
    }

    fn passes_charged(&mut self, test: Test, k: u32) -> bool
        ensures { (result ≡ passes_at test.policy test.m (charges_on self.old.springs.notch (spring_in self.old.springs)) self.old.springs.n k)
            × Beside self.old.springs self.new.springs }
    {
        test.passes_charged(&mut self.springs, k)
    }

    fn margin(&self, test: Test) -> i64
        requires { is_weighed test.policy ≡ true }
        ensures { result ≡ margin_of test.policy test.m (load_in self.now.springs.loads) self.now.springs.n }
    {
        test.margin(&self.springs)
    }

    fn least_step(&mut self, w: Weights) -> Ended
        requires { Light w }
        ensures { HalvingEnds (charged_at w self.old.springs.notch (spring_in self.old.springs) self.old.springs.n)
            (full_in self.old.springs self.old.springs.n) result
            × Beside self.old.springs self.new.springs }
    {
        halve::least_step(w, &mut self.springs)
    }

    fn next_due(&self, p: u32) -> Option<u32>
        ensures { result ≡ next_to (saturations (spring_in self.now.springs)) p self.now.springs.n }
    {
        division::next_due(&self.springs, p)
    }

    fn divide(&self, w: Weights, p: u32, q: u32, sum: u64) -> u32
        requires { Light w × Next (saturations (spring_in self.now.springs)) self.now.springs.n p q
            × SumIs (spring_in self.now.springs) self.now.springs.n p sum }
        ensures { result ≡ divided w (spring_in self.now.springs) self.now.springs.n p q }
    {
        division::divide(w, &self.springs, p, q, sum)
    }

    fn index_of(&self, gone: usize, n: usize) -> Index
        requires { (n ≤ self.now.springs.n) × (gone < n → n < self.now.springs.n) }
        ensures { result ≡ index_by (elastic_in self.now.springs gone) (step_in self.now.springs gone) n }
    {
        order::index_of(&self.springs, gone, n)
    }

    fn admit(
        &mut self,
        table: Table,
        settings: Settings,
        serves: bool,
        room: usize,
    ) -> Result<(), Refusal>
        requires { Empty settings.notch self.old.springs }
        ensures { AdmittedSprung serves settings table.rows table.n room result self.new.springs }
    {
        admission::admit(&table, settings, serves, room, &mut self.springs)
    }

    fn admit_proposal(
        &mut self,
        table: Table,
        settings: Settings,
        step: u32,
        proposed: usize,
        room: usize,
    ) -> Result<(), Refusal>
        ensures { AdmittedLoaded settings table.rows table.n step proposed room result self.new.springs }
    {
        proposal::admit(table, settings, step, proposed, room, &mut self.springs)
    }

    fn grant(&mut self, step: u32, settings: Settings, periods: &mut [u32], processors: &mut [u16])
        requires { (self.old.springs.n ≤ length periods.old) × (self.old.springs.n ≤ length processors.old)
            × (self.old.springs.notch ≡ settings.notch) × (settings.m ≤ most_processors)
            × (passes (meant settings.policy) settings.m (loads_on settings (spring_in self.old.springs) step) self.old.springs.n ≡ true) }
        ensures { Leaves (accepted step) settings (spring_in self.old.springs) self.old.springs.n periods.old processors.old
            periods.new processors.new }
    {
        outcome::grant(Ok(step), settings, &mut self.springs, periods, processors)
    }
}

#[cfg(test)]
mod tests {
    use super::*;
    use kinds::{Policy, Task};
    use std::test::Fail;

    // Two tasks whose shares are 250,000 and 500,000 at step 0, and fall by 125,000 at each step, to 125,000 and 250,000.
    fn table() -> Table
        ensures { result.n ≡ 2 }
    {
        let mut rows = [Task::NONE; Table::MOST_TASKS];
        rows[0] = Task::new(1, 4, 8, 125_000);
        rows[1] = Task::new(1, 2, 4, 125_000);
        Table::new(rows, 2)
    }

    // Their springs.
    fn held() -> Result<Held, usize> {
        let mut held = Held::new(1);
        held.take_in(table(), 0)?;
        Ok(held)
    }

    #[test]
    fn springs_are_taken_in(rt: HostRuntime) -> Result<(), Fail> {
        let held = held()?;
        assert_eq!(rt; held.total().sum, 0);
        assert_eq!(rt; held.total_at(1).max, 375_000);
        assert!(rt; held.springs.n == 2);
        assert_eq!(rt; held.period(1, 1), 3);
        assert_eq!(rt; held.next_due(1), Some(2));
        assert_eq!(rt; held.springs.full_compression(), 2);
        Ok(())
    }

    #[test]
    fn shares_are_let_down(rt: HostRuntime) -> Result<(), Fail> {
        let mut held = held()?;
        assert_eq!(rt; held.share_sum(0), 750_000);
        assert_eq!(rt; held.let_down(), 500_000);
        assert_eq!(rt; held.total().max, 375_000);
        assert_eq!(rt; held.let_down(), 375_000);
        assert_eq!(rt; held.let_down(), 375_000);
        Ok(())
    }

    // At step 1 the second task's period is 3, of which a whole tick is charged: 333,334.
    #[test]
    fn charges_are_tested(rt: HostRuntime) -> Result<(), Fail> {
        let mut held = held()?;
        assert_eq!(rt; held.charge_sum(1), 458_334);
        let half = Weights { b: 0, r: 500_000 };
        assert!(rt; !held.hold_charged(half, 0));
        assert_eq!(rt; held.total().sum, 750_000);
        assert!(rt; held.hold_charged(half, 1));
        assert_eq!(rt; held.total().sum, 458_334);
        let pooled = Test {
            policy: Policy::Pooled,
            m: 1,
        };
        assert!(rt; held.passes_charged(pooled, 0));
        assert_eq!(rt; held.total().max, 500_000);
        let ended = held.least_step(half);
        assert_eq!(rt; ended.step, Some(1));
        assert_eq!(rt; ended.looks, 2);
        assert!(rt; held.passes(pooled));
        Ok(())
    }

    // The settings of one processor under edition 1, where nothing is swapped.
    fn settings() -> Settings
        ensures { (result.m ≡ 1) × (result.notch ≡ 1) }
    {
        Settings {
            policy: Policy::Pooled,
            m: 1,
            swap: 0,
            notch: 1,
            edition: Settings::SHARE_EDITION,
        }
    }

    #[test]
    fn tables_are_admitted(rt: HostRuntime) {
        let mut held = Held::new(1);
        assert_eq!(rt;
            held.admit(table(), settings(), true, 1),
            Err(Refusal::OutputTooShort(2))
        );
        assert_eq!(rt; held.total().sum, 0);
        let mut held = Held::new(1);
        assert_eq!(rt; held.admit(table(), settings(), true, 2), Ok(()));
        assert_eq!(rt; held.total().sum, 0);
        held.load(settings(), 1);
        assert_eq!(rt; held.total().sum, 500_000);
        assert_eq!(rt;
            held.admit_proposal(table(), settings(), 2, 2, 0),
            Err(Refusal::OutputTooShort(1))
        );
        assert_eq!(rt; held.total().sum, 500_000);
        assert_eq!(rt; held.admit_proposal(table(), settings(), 2, 2, 1), Ok(()));
        assert_eq!(rt; held.total().sum, 375_000);
    }

    // First fit is lent the loads, and places both tasks on the first processor.
    #[test]
    fn plans_are_granted(rt: HostRuntime) {
        let settings = Settings {
            policy: Policy::FirstFit,
            ..settings()
        };
        let mut held = Held::new(1);
        assert_eq!(rt; held.admit(table(), settings, true, 2), Ok(()));
        held.load(settings, 1);
        let test = Test {
            policy: Policy::FirstFit,
            m: 1,
        };
        assert!(rt; held.passes(test));
        assert!(rt; held.springs.n == 2);
        let mut periods = [0u32; 3];
        let mut processors = [9u16; 3];
        held.grant(1, settings, &mut periods, &mut processors);
        assert_eq!(rt; periods, [8, 3, 0]);
        assert_eq!(rt; processors, [1, 1, 9]);
        assert_eq!(rt; held.total().sum, 500_000);
    }
}
