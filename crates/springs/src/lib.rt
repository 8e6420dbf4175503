// The springs of a table, worked out once for a call, and the loads of a step, which come from them. Contracts cite `specs/Spring`, of one spring,
// `specs/Springs`, of those of a table, and `specs/Handover`.
#![tactic(auto)]

ghost use Rattle.std.specs.Prelude.{◌≡◌, ◌≤◌, ◌<◌};
ghost use Rattle.kinds.specs.Limits.{scale, longest_period, most_tasks};
ghost use Rattle.kinds.specs.Task.{Good};
ghost use Rattle.springs.specs.Spring.{spring_of, share_on, period_for, charge_for};
ghost use Rattle.springs.specs.Allowed.{Within, Allowed};

use kinds::{Settings, Table, Task};

// All that a task's shares, periods and charges depend on.
#[derive(Clone, Copy)]
pub struct Spring {
    pub largest: u32,
    pub least: u32,
    pub elasticity: u32,
    pub saturation: u32,
    pub cost: u32,
    pub tmin: u32,
}

impl Spring {
    // The spring of a task.
    pub fn of(task: Task) -> Spring
        requires { Good task }
        ensures { result ≡ spring_of task }
    {
        let largest = share::largest(task);
        let least = share::least(task);
        let saturation = rule::saturation(largest.parts, least.parts, task.e);
        Spring {
            largest: largest.parts as u32,
            least: least.parts as u32,
            elasticity: task.e,
            saturation: saturation as u32,
            cost: task.c,
            tmin: task.tmin,
        }
    }

    // The share at step k. Before the saturation step 32 bits hold what it has fallen by, so that no walk needs 64.
    pub fn share(self, k: u32) -> u32
        requires { Within self }
        ensures { (result ≡ share_on self k) × (result ≤ scale) }
    {
        if k < self.saturation {
            return self.largest - k * self.elasticity;
        }
        if self.elasticity == 0 {
            return self.largest;
        }
        self.least
    }

    // The period on a notch that a share allows.
    fn period_for(self, notch: u16, share: u32) -> u32
        requires { (1 ≤ notch) × (1 ≤ share) × (period_for notch self share ≤ longest_period) }
        ensures { result ≡ period_for notch self share }
    {
        let period = rule::period(u64::from(self.cost), self.tmin, u64::from(share));
        rule::notched_up(notch, period) as u32
    }

    // The period of step k.
    pub fn period(self, notch: u16, k: u32) -> u32
        requires { Allowed notch self }
        ensures { result ≡ period_for notch self (share_on self k) }
    {
        self.period_for(notch, self.share(k))
    }

    // The charge of step k. The largest share is charged whole, at Tmin, which spares a rigid task its divisions.
    pub fn charge(self, notch: u16, k: u32) -> u32
        requires { Allowed notch self }
        ensures { (result ≡ charge_for notch self (share_on self k)) × (result ≤ scale) }
    {
        let share = self.share(k);
        if share == self.largest {
            return share;
        }
        let period = self.period_for(notch, share);
        rule::part(u64::from(self.cost), period) as u32
    }
}

// The springs of n tasks on a notch, and the loads of a step: the shares, or the charges. Columns beside one another, and not a struct for each
// task, are what makes a walk fast: it takes several tasks at a time. That they are within their limits (`Springy`) or allowed periods
// (`Chargeable`) is no ghost field: each call asks for what it needs, and some need neither.
#[derive(Clone, Copy)]
pub struct Springs {
    pub loads: [u32; Table::MOST_TASKS],
    pub largest: [u32; Table::MOST_TASKS],
    pub least: [u32; Table::MOST_TASKS],
    pub elasticity: [u32; Table::MOST_TASKS],
    pub saturation: [u32; Table::MOST_TASKS],
    pub cost: [u32; Table::MOST_TASKS],
    pub tmin: [u32; Table::MOST_TASKS],
    pub n: usize,
    pub notch: u16,
    pub ghost few: { n ≤ most_tasks },
}

impl Springs {
    ghost use Rattle.std.specs.Prelude.{ℕ, get_or};
    ghost use Rattle.springs.specs.Spring.{let_down, shares_on, periods_on, charges_on, loads_on};
    ghost use Rattle.springs.specs.Springs.{spring_in, full_in};
    ghost use Rattle.springs.specs.Handover.{Springy, Chargeable, Workable, Empty, Loaded, Summed, Put, TakenIn};

    // No springs yet.
    pub fn new(notch: u16) -> Springs
        ensures { Empty notch result × Workable result }
    {
        let none = [0u32; Table::MOST_TASKS];
        Springs {
            loads: none,
            largest: none,
            least: none,
            elasticity: none,
            saturation: none,
            cost: none,
            tmin: none,
            n: 0,
            notch,
        }
    }

    // The spring number i.
    pub fn spring(&self, i: usize) -> Spring
        requires { i < most_tasks }
        ensures { result ≡ spring_in self.now i }
    {
        Spring {
            largest: self.largest[i],
            least: self.least[i],
            elasticity: self.elasticity[i],
            saturation: self.saturation[i],
            cost: self.cost[i],
            tmin: self.tmin[i],
        }
    }

    // One spring more.
    fn push(&mut self, spring: Spring)
        requires { self.old.n < most_tasks }
        ensures { Put spring self.old self.new × (self.new.loads ≡ self.old.loads) }
    {
        let i = self.n;
        self.largest[i] = spring.largest;
        self.least[i] = spring.least;
        self.elasticity[i] = spring.elasticity;
        self.saturation[i] = spring.saturation;
        self.cost[i] = spring.cost;
        self.tmin[i] = spring.tmin;
        self.n = i + 1;
    }

    // Takes in the springs of a table where a swap costs so much and a notch is so wide, in the place of those that stood here, up to the first
    // record that is not good there, whose number is the error.
    pub fn take_in(&mut self, table: Table, swap: u16, notch: u16) -> Result<(), usize>
        requires { (table.n ≤ most_tasks) × (1 ≤ notch) }
        ensures { TakenIn swap notch table.rows table.n result self.new × (self.new.loads ≡ self.old.loads) }
    {
        self.n = 0;
        self.notch = notch;
        for (i, task) in table.rows[..table.n].iter().enumerate() {
            if !task.good(swap, notch) {
                return Err(i);
            }
            let spring = Spring::of(task.priced(swap));
            self.push(spring);
        }
        Ok(())
    }

    // Writes the shares of step k, and returns their sum. 32 bits hold it, and are twice as fast as 64.
    pub fn share_sum(&mut self, k: u32) -> u64
        requires { Springy self.old }
        ensures { Summed (shares_on (spring_in self.old) k) self.old self.new result }
    {
        let mut sum: u32 = 0;
        // Over the numbers: a task's own stand in several columns, and its load is written to another.
        for i in 0..self.n {
            let share = self.spring(i).share(k);
            self.loads[i] = share;
            sum += share;
        }
        u64::from(sum)
    }

    // Lets the shares of a step down to those of the next, and returns their sum.
    pub fn let_down(&mut self) -> u64
        requires { Springy self.old × ((i : ℕ) → i < self.old.n → get_or self.old.loads i 0 ≤ scale) }
        ensures { Summed (λ (i : ℕ). let_down (spring_in self.old i) (get_or self.old.loads i 0))
            self.old self.new result }
    {
        let mut sum: u32 = 0;
        // Over the numbers: a task's own stand in several columns, and its load is written to another.
        for i in 0..self.n {
            let share = self.least[i].max(self.loads[i].saturating_sub(self.elasticity[i]));
            self.loads[i] = share;
            sum += share;
        }
        u64::from(sum)
    }

    // Writes the charges of step k on a notch, and returns their sum.
    fn charges(&mut self, notch: u16, k: u32) -> u64
        requires { Chargeable notch self.old }
        ensures { Summed (charges_on notch (spring_in self.old) k) self.old self.new result }
    {
        let mut sum: u32 = 0;
        // Over the numbers: a task's own stand in several columns, and its load is written to another.
        for i in 0..self.n {
            let charge = self.spring(i).charge(notch, k);
            self.loads[i] = charge;
            sum += charge;
        }
        u64::from(sum)
    }

    // The same on the notch of the springs.
    pub fn charge_sum(&mut self, k: u32) -> u64
        requires { Chargeable self.old.notch self.old }
        ensures { Summed (charges_on self.old.notch (spring_in self.old) k) self.old self.new result }
    {
        self.charges(self.notch, k)
    }

    // Writes what the settings' edition tests and places at step k: the charges under edition 2, else the shares.
    pub fn load(&mut self, settings: Settings, k: u32)
        requires { Chargeable settings.notch self.old }
        ensures { Loaded (loads_on settings (spring_in self.old) k) self.old.n self.old self.new }
    {
        if settings.tests_charge() {
            self.charges(settings.notch, k);
        } else {
            self.share_sum(k);
        }
    }

    // The period of task i at step k.
    pub fn period(&self, i: usize, k: u32) -> u32
        requires { (i < self.now.n) × Allowed self.now.notch (spring_in self.now i) }
        ensures { result ≡ periods_on self.now.notch (spring_in self.now) k i }
    {
        self.spring(i).period(self.notch, k)
    }

    // Document 01: "Full compression K: the greatest saturation step, 0 if there is none."
    pub fn full_compression(&self) -> u32
        ensures { result ≡ full_in self.now self.now.n }
    {
        let mut greatest: u32 = 0;
        for step in &self.saturation[..self.n] {
            greatest = greatest.max(*step);
        }
        greatest
    }
}
