// The five policies over any loads: their sum and max, the two sides of a policy's test, passing and the margin; and the tests of a step on
// springs. Contracts cite `specs/Sides`, `specs/Passing` and `specs/Weighed`.
#![tactic(auto)]

ghost use Rattle.std.specs.Prelude.{true, ◌≡◌, ◌*◌, ◌≤◌, leb};
ghost use Rattle.std.proofs.Math.IntN.{sub_ℕ};
ghost use Rattle.ground.specs.Folds.{sum_to};
ghost use Rattle.kinds.specs.Limits.{scale, most_tasks, most_processors};
ghost use Rattle.kinds.specs.Policy.{is_weighed, Served};
ghost use Rattle.springs.specs.Spring.{shares_on, charges_on};
ghost use Rattle.springs.specs.Springs.{spring_in};
ghost use Rattle.springs.specs.Handover.{Springy, Chargeable, Beside, StaysLow};
ghost use Rattle.fit.specs.Fit.{load_in};
ghost use Rattle.fit.specs.Handover.{Loads};
ghost use Rattle.policy.specs.Sides.{weights_of, most_sum, left_of, margin_of};
ghost use Rattle.policy.specs.Passing.{passes, passes_at};
ghost use Rattle.policy.specs.Weighed.{weighed, charged_at};
ghost use Rattle.policy.specs.Handover.{Light, SideIs, TotalIs};

use kinds::{Policy, Share};
use springs::Springs;

// The sum and the max of some loads.
#[derive(Clone, Copy)]
pub struct Total {
    pub sum: u64,
    pub max: u64,
}

impl Total {
    // The total of the loads. 32 bits hold it, and are twice as fast as 64.
    pub fn of(springs: &Springs) -> Total
        requires { Loads springs.now.loads springs.now.n }
        ensures { TotalIs (load_in springs.now.loads) springs.now.n result.sum result.max }
    {
        let mut sum: u32 = 0;
        let mut max: u32 = 0;
        for load in &springs.loads[..springs.n] {
            sum += *load;
            max = max.max(*load);
        }
        Total {
            sum: u64::from(sum),
            max: u64::from(max),
        }
    }

    // The total of the shares at step k, which are not written.
    pub fn at(springs: &Springs, k: u32) -> Total
        requires { Springy springs.now }
        ensures { TotalIs (shares_on (spring_in springs.now) k) springs.now.n result.sum result.max }
    {
        let mut sum: u32 = 0;
        let mut max: u32 = 0;
        // Over the numbers: a spring stands in six columns.
        for i in 0..springs.n {
            let share = springs.spring(i).share(k);
            sum += share;
            max = max.max(share);
        }
        Total {
            sum: u64::from(sum),
            max: u64::from(max),
        }
    }
}

// The test of a policy that is weighed is sum + b · max ≤ r. That they are small (`Light`) is no ghost field: `weights_of` of `specs/Sides` gives
// weights for any m and n.
#[derive(Clone, Copy)]
pub struct Weights {
    pub b: u64,
    pub r: u64,
}

impl Weights {
    // The weights of a policy for n tasks on m processors; one that is not weighed has none.
    pub fn of(policy: Policy, m: u16, n: usize) -> Weights
        requires { (1 ≤ m) × (m ≤ most_processors) × (n ≤ most_tasks) }
        ensures { (result ≡ weights_of policy m n) × Light result }
    {
        let m = u64::from(m);
        let all = m * Share::SCALE;
        match policy {
            Policy::Pooled => Weights { b: 0, r: all },
            Policy::GlobalEdf => Weights { b: m - 1, r: all },
            Policy::GlobalRm => Weights { b: 0, r: 0 },
            Policy::FirstFit => Weights { b: 0, r: 0 },
            Policy::OneCoreRm => Weights {
                b: 0,
                r: bound::bound_of(n),
            },
            Policy::Further(_) => Weights { b: 0, r: 0 },
        }
    }

    // The left side of the test, for a sum and a max.
    pub fn left(self, sum: u64, max: u64) -> u64
        requires { Light self × (sum ≤ scale * most_tasks) × (max ≤ scale) }
        ensures { SideIs (left_of self sum max) result }
    {
        sum + self.b * max
    }

    // Whether the test holds for a total.
    pub fn hold(self, total: Total) -> bool
        requires { Light self × (total.sum ≤ scale * most_tasks) × (total.max ≤ scale) }
        ensures { result ≡ leb (left_of self total.sum total.max) self.r }
    {
        self.left(total.sum, total.max) <= self.r
    }

    // Whether the test holds for the loads, with their sum at hand: where it is above the right side or the max does not count, they are not walked
    // over.
    fn hold_summed(self, springs: &Springs, sum: u64) -> bool
        requires { Light self × Loads springs.now.loads springs.now.n × (sum ≡ sum_to (load_in springs.now.loads) springs.now.n) }
        ensures { result ≡ weighed self (load_in springs.now.loads) springs.now.n }
    {
        if self.r < sum {
            return false;
        }
        if self.b == 0 {
            return true;
        }
        self.hold(Total::of(springs))
    }

    // Whether the test holds at step k on the charges, which then stand in the loads.
    pub fn hold_charged(self, springs: &mut Springs, k: u32) -> bool
        requires { Light self × Chargeable springs.old.notch springs.old }
        ensures { (result ≡ charged_at self springs.old.notch (spring_in springs.old) springs.old.n k)
            × StaysLow springs.old springs.new × Beside springs.old springs.new }
    {
        let sum = springs.charge_sum(k);
        self.hold_summed(springs, sum)
    }
}

// What the loads of n tasks that pass add up to at most.
pub fn most_sum(policy: Policy, m: u16, n: usize) -> u64
    requires { (1 ≤ m) × (m ≤ most_processors) × (n ≤ most_tasks) }
    ensures { result ≡ most_sum policy m n }
{
    if policy.is_first_fit() {
        return u64::from(m) * Share::SCALE;
    }
    Weights::of(policy, m, n).r
}

// The test of a policy that is served, on m processors.
#[derive(Clone, Copy)]
pub struct Test {
    pub policy: Policy,
    pub m: u16,
    pub ghost some: { 1 ≤ m },
    pub ghost few: { m ≤ most_processors },
    pub ghost served: { Served policy },
}

impl Test {
    // Its weights for n tasks.
    pub fn weights(self, n: usize) -> Weights
        requires { n ≤ most_tasks }
        ensures { (result ≡ weights_of self.policy self.m n) × Light result }
    {
        Weights::of(self.policy, self.m, n)
    }

    // Whether the loads pass.
    pub fn passes(self, springs: &Springs) -> bool
        requires { Loads springs.now.loads springs.now.n }
        ensures { result ≡ passes self.policy self.m (load_in springs.now.loads) springs.now.n }
    {
        let policy = self.policy;
        if policy.is_first_fit() {
            let trial = fit::first_fit(&springs.loads, springs.n, self.m as usize);
            return trial.placed;
        }
        self.weights(springs.n).hold(Total::of(springs))
    }

    // The same of its policy.
    pub fn most_sum(self, n: usize) -> u64
        requires { n ≤ most_tasks }
        ensures { result ≡ most_sum self.policy self.m n }
    {
        most_sum(self.policy, self.m, n)
    }

    // Whether the loads pass, with their sum at hand, and what it may be at most: where it is more, the policy is not tried.
    pub fn passes_summed(self, springs: &Springs, sum: u64, most: u64) -> bool
        requires { Loads springs.now.loads springs.now.n × (sum ≡ sum_to (load_in springs.now.loads) springs.now.n)
            × (most ≡ most_sum self.policy self.m springs.now.n) }
        ensures { result ≡ passes self.policy self.m (load_in springs.now.loads) springs.now.n }
    {
        if most < sum {
            return false;
        }
        self.passes(springs)
    }

    // Whether the springs pass at step k on their charges, which then stand in the loads. The sum is held to the most here: with a second caller
    // `passes_summed` would be a call for each step of edition 1.
    pub fn passes_charged(self, springs: &mut Springs, k: u32) -> bool
        requires { Chargeable springs.old.notch springs.old }
        ensures { (result ≡ passes_at self.policy self.m (charges_on springs.old.notch (spring_in springs.old)) springs.old.n k)
            × StaysLow springs.old springs.new × Beside springs.old springs.new }
    {
        let sum = springs.charge_sum(k);
        if self.most_sum(springs.n) < sum {
            return false;
        }
        self.passes(springs)
    }

    // The right side of the test minus the left, as a signed number, of a policy that is weighed.
    pub fn margin(self, springs: &Springs) -> i64
        requires { Loads springs.now.loads springs.now.n × (is_weighed self.policy ≡ true) }
        ensures { result ≡ margin_of self.policy self.m (load_in springs.now.loads) springs.now.n }
    {
        let w = self.weights(springs.n);
        let total = Total::of(springs);
        difference(w.r, w.left(total.sum, total.max))
    }
}

// The first number minus the second.
fn difference(a: u64, b: u64) -> i64
    requires { (a ≤ 1000000000) × (b ≤ 1000000000) }
    ensures { result ≡ sub_ℕ a b }
{
    a as i64 - b as i64
}
