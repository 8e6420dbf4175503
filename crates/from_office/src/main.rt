// The office's program: makes the station sheet of a text. The policy and the processors are two arguments, by number; the text is standard
// input, as people give it. `tidy::tidied` makes the exact text of it, `tidy_words` tells what was passed over and what cannot be taken, and the
// sheet is `office_sheet::enter`'s. One byte more is read than a text may have that is tidied, so that none is taken that was cut.
#![tactic(auto)]

ghost use Rattle.std.specs.Prelude.{◌≡◌, ◌≤◌, length, take};

use loosen::fields::Kind;
use std::io;

// The sheet of a text, or the line of its refusal.
fn enter(policy: &[u8], processors: &[u8], given: &[u8], out: &mut [u8; sheet::LONGEST]) -> usize
    ensures { (result ≤ length out.new) × (result ≡ length (take result out.new)) }
{
    let mut exact = [0u8; office::LONGEST];
    let Ok(k) = tidy::tidied(given, &mut exact) else {
        return office_sheet::enter(policy, processors, given, out);
    };
    office_sheet::enter(policy, processors, &exact[..k], out)
}

fn main(rt: HostRuntime) -> io::Result<()> {
    let mut policy = [0u8; 16];
    let p = lent_input::word(&rt, 1, &mut policy);
    let mut processors = [0u8; 16];
    let m = lent_input::word(&rt, 2, &mut processors);
    let mut given = [0u8; tidy::LONGEST + 1];
    let n = lent_input::read_full(&mut rt.stdin(), &mut given)?;
    tidy_words::tell(&mut rt.stderr(), &given[..n], Kind::Task);
    let mut out = [0u8; sheet::LONGEST];
    let k = enter(&policy[..p], &processors[..m], &given[..n], &mut out);
    rt.write_all(&out[..k])
}
