// Rounding up, and the search for the least step that passes. Contracts cite `specs/Rounding` and `specs/Least`.
#![tactic(auto)]

ghost use Rattle.std.specs.Prelude.{ℕ, Bool, ◌≡◌, ◌+◌, ◌≤◌, ◌<◌};
ghost use Rattle.ground.specs.Least.{least_up_to, Rising, Answers};
ghost use Rattle.ground.specs.Rounding.{ceil_div};

// How a search for a step ended: the step, where there is one, and the looks that it made.
#[derive(Clone, Copy)]
pub struct Ended {
    pub step: Option<u32>,
    pub looks: u32,
}

// The quotient rounded up.
pub fn ceil_div(a: u64, b: u64) -> u64
    requires { (1 ≤ b) × (a + b ≤ 2000000000000000000) }
    ensures { result ≡ ceil_div a b }
{
    (a + (b - 1)) / b
}

// The least step from 0 to `full` that passes, where a step that passes is followed by steps that pass: the range is halved, and full + 1 stands
// for none.
pub fn least_passing<F: Fn(u32) -> bool>(full: u32, passes: F) -> Option<u32>
    requires room { full < 2000000000 }
    requires callable { F.IsAlwaysCallable passes }
    ensures { (test : ℕ → Bool) → Rising test → Answers (F.post passes) test full → result ≡ least_up_to test full }
{
    let mut from = 0;
    let mut to = full + 1;
    while from < to {
        let middle = (from + to) / 2;
        if passes(middle) {
            to = middle;
        } else {
            from = middle + 1;
        }
    }
    (from <= full).then_some(from)
}
