// The next saturation step, and the division of the stretch between two saturation steps, on springs. Contracts cite `specs/Next`,
// `specs/Division` and `specs/Handover`.
#![tactic(auto)]

ghost use Rattle.std.specs.Prelude.{◌≡◌, ◌*◌, ◌≤◌, max};
ghost use Rattle.ground.specs.Rounding.{ceil_div};
ghost use Rattle.kinds.specs.Limits.{scale, greatest_elasticity, most_tasks};
ghost use Rattle.policy.specs.Handover.{Light};
ghost use Rattle.springs.specs.Spring.{share_on, saturations};
ghost use Rattle.springs.specs.Springs.{spring_in};
ghost use Rattle.springs.specs.Allowed.{Within};
ghost use Rattle.springs.specs.Handover.{Springy, SumIs};
ghost use Rattle.division.specs.Next.{Next, nearer, next_to};
ghost use Rattle.division.specs.Division.{slope, need_to, divided, FallIs};

use policy::Weights;
use springs::{Spring, Springs};

// Of the steps above p, the nearer of what was found before and x.
fn nearer_of(p: u32, before: Option<u32>, x: u32) -> Option<u32>
    ensures { result ≡ nearer p before x }
{
    if x <= p {
        return before;
    }
    match before {
        Some(found) => Some(found.min(x)),
        None => Some(x),
    }
}

// The next saturation step above p.
pub fn next_due(springs: &Springs, p: u32) -> Option<u32>
    requires { Springy springs.now }
    ensures { result ≡ next_to (saturations (spring_in springs.now)) p springs.now.n }
{
    let mut nearest: Option<u32> = None;
    for step in &springs.saturation[..springs.n] {
        nearest = nearer_of(p, nearest, *step);
    }
    nearest
}

// By how much the share of a spring falls at each step after p, before the next saturation step.
fn slope_of(spring: Spring, p: u32) -> u32
    requires { Within spring }
    ensures { (result ≡ slope spring p) × (result ≤ greatest_elasticity) }
{
    if p < spring.saturation {
        spring.elasticity
    } else {
        0
    }
}

// How far the left side of a test is above the right, and by how much that falls at each step.
#[derive(Clone, Copy)]
pub struct Line {
    pub over: u64,
    pub by: u64,
    pub ghost over_most: { over ≤ 1000000000 },
    pub ghost by_some: { 1 ≤ by },
    pub ghost by_most: { by ≤ 1000000000 },
}

impl Line {
    ghost use Rattle.division.specs.Handover.{NeedIs};

    // The steps that the line needs to come down.
    fn need(self) -> u64
        ensures { NeedIs (ceil_div self.over self.by) result }
    {
        ground::ceil_div(self.over, self.by)
    }

    // The greater of the steps needed before and those that the line needs. It divides only where it must: a product says that a line needs no more.
    fn harder(self, before: u64) -> u64
        requires { before ≤ 1000000000 }
        ensures { NeedIs (max before (ceil_div self.over self.by)) result }
    {
        if self.over <= before * self.by {
            return before;
        }
        self.need()
    }
}

// The stretch of a test from step p on: the sum of the shares there, and by how much it falls at each step.
#[derive(Clone, Copy)]
pub struct Stretch {
    pub w: Weights,
    pub p: u32,
    pub sum: u64,
    pub fall: u64,
    pub ghost light: { Light w },
    pub ghost sum_most: { sum ≤ scale * most_tasks },
    pub ghost fall_some: { 1 ≤ fall },
    pub ghost fall_most: { fall ≤ greatest_elasticity * most_tasks },
}

impl Stretch {
    ghost use Rattle.division.specs.Handover.{LineIs};

    // By how much the left side of the test is above the right if a task with this share and slope has the max, and by how much that falls
    // at each step.
    fn line(self, share: u64, slope: u64) -> Line
        requires { (share ≤ scale) × (slope ≤ greatest_elasticity) }
        ensures { LineIs self.w self.sum self.fall share slope result }
    {
        let w = self.w;
        let left = w.left(self.sum, share);
        let by = w.left(self.fall, slope);
        Line {
            over: left.saturating_sub(w.r),
            by,
        }
    }

    // The line of a task with this spring.
    fn line_of(self, spring: Spring) -> Line
        requires { Within spring }
        ensures { LineIs self.w self.sum self.fall (share_on spring self.p) (slope spring self.p) result }
    {
        let share = u64::from(spring.share(self.p));
        let slope = u64::from(slope_of(spring, self.p));
        self.line(share, slope)
    }

    // The steps that are needed, over all tasks.
    fn need_over(self, springs: &Springs) -> u64
        requires { Springy springs.now }
        ensures { result ≡ need_to self.w (spring_in springs.now) self.p self.sum self.fall springs.now.n }
    {
        let mut hardest = self.line(0, 0).need();
        // Over the numbers: a spring stands in six columns.
        for i in 0..springs.n {
            hardest = self.line_of(springs.spring(i)).harder(hardest);
        }
        hardest
    }

    // The same, without the walk where the max does not count: there no task needs more than none.
    fn needed(self, springs: &Springs) -> u64
        requires { Springy springs.now }
        ensures { result ≡ need_to self.w (spring_in springs.now) self.p self.sum self.fall springs.now.n }
    {
        let w = self.w;
        if w.b == 0 {
            return self.line(0, 0).need();
        }
        self.need_over(springs)
    }
}

// By how much the sum of the shares falls.
fn slope_sum(springs: &Springs, p: u32) -> u64
    requires { Springy springs.now }
    ensures { FallIs (spring_in springs.now) springs.now.n p result }
{
    let mut fall: u64 = 0;
    // Over the numbers: a spring stands in six columns.
    for i in 0..springs.n {
        fall += u64::from(slope_of(springs.spring(i), p));
    }
    fall
}

// The least passing step of the stretch from p, which fails, to the next saturation step q, which passes. The sum of the shares at p
// is at hand.
pub fn divide(w: Weights, springs: &Springs, p: u32, q: u32, sum: u64) -> u32
    requires { Light w × Springy springs.now × Next (saturations (spring_in springs.now)) springs.now.n p q
        × SumIs (spring_in springs.now) springs.now.n p sum }
    ensures { result ≡ divided w (spring_in springs.now) springs.now.n p q }
{
    let fall = slope_sum(springs, p);
    let stretch = Stretch { w, p, sum, fall };
    let more = stretch.needed(springs);
    if more < u64::from(q - p) {
        return p + more as u32;
    }
    q
}
