// The one admission: what every call on a table checks before it works, in document 01's order, each check by `?` after the one before it.
// Contracts cite `specs/Admission` and `specs/Handover`.
#![tactic(auto)]

ghost use Rattle.std.specs.Prelude.{◌≡◌};
ghost use Rattle.admission.specs.Admission.{knows, misset, no_edition, misset_numbers, unsuited, misset_under};
ghost use Rattle.admission.specs.Admission.{gate, served, roomy, gate_of};
ghost use Rattle.admission.specs.Handover.{AdmittedSprung};
ghost use Rattle.springs.specs.Handover.{Workable, Empty};

use kinds::{Policy, Refusal, Settings, Table};
use springs::Springs;

// The policy's own refusal: 1 where it is none of those numbered, 15 where it is withdrawn.
pub fn knows(policy: Policy) -> Result<(), Refusal>
    ensures { result ≡ knows policy }
{
    match policy {
        Policy::Pooled | Policy::GlobalEdf | Policy::FirstFit | Policy::OneCoreRm => Ok(()),
        Policy::GlobalRm => Err(Refusal::PolicyWithdrawn),
        Policy::Further(_) => Err(Refusal::NoSuchPolicy),
    }
}

// Whether there are no processors, or more than the most.
pub fn misset(m: u16) -> bool
    ensures { result ≡ misset m }
{
    !(1..=Settings::MOST_PROCESSORS).contains(&m)
}

// Whether there is no such edition.
fn no_edition(edition: u16) -> bool
    ensures { result ≡ no_edition edition }
{
    edition != Settings::SHARE_EDITION && edition != Settings::CHARGE_EDITION
}

// What refusal 2 is given for in a call with settings, whatever the policy.
pub fn misset_numbers(settings: Settings) -> bool
    ensures { result ≡ misset_numbers settings }
{
    misset(settings.m) || settings.notch == 0 || no_edition(settings.edition)
}

// Whether policy 5, which needs one processor, is asked for on another number of them.
fn unsuited(policy: Policy, m: u16) -> bool
    ensures { result ≡ unsuited policy m }
{
    policy.is_one_core() && m != 1
}

// What refusal 2 is given for in a call that asks for a policy.
pub fn misset_under(settings: Settings) -> bool
    ensures { result ≡ misset_under settings }
{
    let asked = settings.policy;
    misset_numbers(settings) || unsuited(asked.meant(), settings.m)
}

// Refusals 2 and 3, for any kind of table: something is misset, and the count n.
#[tactic(auto, unfolding(crate::specs::Admission::gate))]
pub fn gate(misset: bool, n: usize) -> Result<(), Refusal>
    ensures { result ≡ gate misset n }
{
    if misset {
        return Err(Refusal::Misset);
    }
    if Table::MOST_TASKS < n {
        return Err(Refusal::TooManyTasks(n));
    }
    Ok(())
}

// Refusal 5: the room of the shortest lent output.
pub fn roomy(n: usize, room: usize) -> Result<(), Refusal>
    ensures { result ≡ roomy n room }
{
    if room < n {
        return Err(Refusal::OutputTooShort(n));
    }
    Ok(())
}

// Refusal 4: policy 4 is asked of a call that does not serve it.
fn served(policy: Policy, serves: bool) -> Result<(), Refusal>
    ensures { result ≡ served serves policy }
{
    if policy.is_first_fit() && !serves {
        return Err(Refusal::PolicyNotServed);
    }
    Ok(())
}

// Refusals 1 to 5 of a call on n tasks that serves policy 4, or does not.
pub fn gate_of(settings: Settings, serves: bool, n: usize, room: usize) -> Result<(), Refusal>
    ensures { result ≡ gate_of serves settings n room }
{
    let asked = settings.policy;
    let policy = asked.meant();
    knows(policy)?;
    gate(misset_under(settings), n)?;
    served(policy, serves)?;
    roomy(n, room)
}

// Refusals 1 to 6. Where none is given, the springs of the table are taken in.
pub fn admit(
    table: &Table,
    settings: Settings,
    serves: bool,
    room: usize,
    springs: &mut Springs,
) -> Result<(), Refusal>
    requires { Empty settings.notch springs.old }
    ensures { AdmittedSprung serves settings table.now.rows table.now.n room result springs.new
        × (Workable springs.old → Workable springs.new) }
{
    gate_of(settings, serves, table.n, room)?;
    springs
        .take_in(*table, settings.swap, settings.notch)
        .map_err(Refusal::BadRecord)
}
