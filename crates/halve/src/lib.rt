// Ask 10: the quick finder's search under edition 2. It halves the range of steps from 0 to full compression and one more, which means none,
// and tests each middle on the charges. Contracts cite `specs/Halves`.
#![tactic(auto)]

ghost use Rattle.std.specs.Prelude.{◌≡◌, ◌≤◌, ◌<◌};
ghost use Rattle.kinds.specs.Limits.{scale};
ghost use Rattle.springs.specs.Springs.{spring_in, full_in};
ghost use Rattle.springs.specs.Handover.{Chargeable, Beside, StaysLow};
ghost use Rattle.policy.specs.Handover.{Light};
ghost use Rattle.policy.specs.Weighed.{charged_at};
ghost use Rattle.halve.specs.Halves.{half, HalvingEnds};

use ground::Ended;
use policy::Weights;
use springs::Springs;

// The steps that are left, and the looks made.
#[derive(Clone, Copy)]
pub struct Range {
    pub from: u32,
    pub to: u32,
    pub looks: u32,
}

// One look: tests the middle, keeps one half, and raises the count by one.
fn look(w: Weights, springs: &mut Springs, range: Range) -> Range
    requires { Light w × Chargeable springs.old.notch springs.old × (range.from < range.to) × (range.to ≤ scale) × (range.looks ≤ 20) }
    ensures { (result ≡ half (charged_at w springs.old.notch (spring_in springs.old) springs.old.n) range)
        × StaysLow springs.old springs.new × Beside springs.old springs.new }
{
    let middle = (range.from + range.to) / 2;
    let passed = w.hold_charged(springs, middle);
    let looks = range.looks + 1;
    if passed {
        return Range {
            from: range.from,
            to: middle,
            looks,
        };
    }
    let above = middle + 1;
    Range {
        from: above,
        to: range.to,
        looks,
    }
}

// The least step that passes, and the looks that it took, which `ground::least_passing` does not count.
pub fn least_step(w: Weights, springs: &mut Springs) -> Ended
    requires { Light w × Chargeable springs.old.notch springs.old }
    ensures { HalvingEnds (charged_at w springs.old.notch (spring_in springs.old) springs.old.n)
        (full_in springs.old springs.old.n) result
        × StaysLow springs.old springs.new × Beside springs.old springs.new }
{
    let full = springs.full_compression();
    let none = full + 1;
    let mut range = Range {
        from: 0,
        to: none,
        looks: 0,
    };
    while range.from < range.to {
        range = look(w, springs, range);
    }
    let looks = range.looks;
    if range.from <= full {
        let step = Some(range.from);
        return Ended { step, looks };
    }
    Ended { step: None, looks }
}
