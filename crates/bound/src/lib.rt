// The bound of rate monotonic on one processor, in parts, for each number of tasks. Its contract cites `specs/Bound`; the laws of
// `proofs/Bounds` say that the entries follow document 02's rule.
#![tactic(auto)]

ghost use Rattle.std.specs.Prelude.{◌≡◌, ◌≤◌};
ghost use Rattle.kinds.specs.Limits.{most_tasks};
ghost use Rattle.bound.specs.Bound.{bound_of};

use kinds::Table;

// The entry for n tasks stands at n.
const BOUNDS: [u64; Table::MOST_TASKS + 1] = [
    0, 1_000_000, 828_427, 779_763, 756_828, 743_491, 734_772, 728_626, 724_061, 720_537, 717_734,
    715_451, 713_557, 711_958, 710_592, 709_411, 708_380, 707_472, 706_666, 705_945, 705_298,
    704_713, 704_182, 703_697, 703_253, 702_845, 702_469, 702_121, 701_797, 701_497, 701_216,
    700_954, 700_708,
];

// The bound for n tasks.
pub fn bound_of(n: usize) -> u64
    requires { n ≤ most_tasks }
    ensures { result ≡ bound_of n }
{
    BOUNDS[n]
}
