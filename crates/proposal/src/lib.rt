// Ask 7: the checker of a proposal, a processor for each task at a step, whoever made it. The promise of `check` is `outcome` of
// `specs/Proposal`; the other contracts cite `specs/Loads` and `specs/Handover`.
#![tactic(auto)]

ghost use Rattle.std.specs.Prelude.{◌≡◌, length, get_or};
ghost use Rattle.springs.specs.Handover.{Workable};
ghost use Rattle.fit.specs.Fit.{load_in};
ghost use Rattle.proposal.specs.Loads.{is_out_of_range, is_overfull};
ghost use Rattle.proposal.specs.Proposal.{place_in, gate_of, outcome, Meets};
ghost use Rattle.proposal.specs.Handover.{AdmittedLoaded, FoundFirst, Loadable, LoadsAre};

use kinds::{Refusal, Settings, Share, Table};
use springs::Springs;

// Refusals 2, 3 and 5 of a call on n tasks, for a proposal of so many entries and an output with so much room.
fn gate_of(settings: Settings, n: usize, proposed: usize, room: usize) -> Result<(), Refusal>
    ensures { result ≡ gate_of settings n proposed room }
{
    admission::gate(admission::misset_numbers(settings), n)?;
    admission::roomy(n, proposed)?;
    admission::roomy(usize::from(settings.m), room)
}

// Refusals 2 to 6. Where none is given, the springs have the loads of the tasks at the step.
pub fn admit(
    table: Table,
    settings: Settings,
    step: u32,
    proposed: usize,
    room: usize,
    springs: &mut Springs,
) -> Result<(), Refusal>
    ensures { AdmittedLoaded settings table.rows table.n step proposed room result springs.new
        × (Workable springs.old → Workable springs.new) }
{
    gate_of(settings, table.n, proposed, room)?;
    springs
        .take_in(table, settings.swap, settings.notch)
        .map_err(Refusal::BadRecord)?;
    springs.load(settings, step);
    Ok(())
}

// Whether a processor is not 1 to m.
fn out_of_range(m: u16, processor: u16) -> bool
    ensures { result ≡ is_out_of_range m processor }
{
    !(1..=m).contains(&processor)
}

// The first task whose processor is not 1 to m.
fn first_out_of_range(proposal: &[u16], m: u16) -> Option<usize>
    ensures { FoundFirst (λ i. is_out_of_range m (place_in proposal.now i)) (length proposal.now) result }
{
    proposal
        .iter()
        .position(|&processor| out_of_range(m, processor))
}

// The loads that a proposal puts on the processors: that of each task on its own.
fn loads_of(springs: &Springs, proposal: &[u16]) -> [u32; Settings::MOST_PROCESSORS as usize]
    requires { Loadable springs.now.loads springs.now.n proposal.now }
    ensures { LoadsAre (load_in springs.now.loads) (place_in proposal.now) springs.now.n result }
{
    let n = springs.n;
    let mut held = [0u32; Settings::MOST_PROCESSORS as usize];
    for (&load, &processor) in springs.loads[..n].iter().zip(&proposal[..n]) {
        held[usize::from(processor) - 1] += load;
    }
    held
}

// How many processors come before the lowest overfull one, where there is one.
fn before_overfull(held: &[u32]) -> Option<usize>
    ensures { FoundFirst (λ j. is_overfull (get_or held.now j 0)) (length held.now) result }
{
    held.iter().position(|&load| Share::SCALE < u64::from(load))
}

// Accepts a proposal that gives each task a processor from 1 to m and puts no load above S on one at the step, and writes the m loads; a
// refused call writes nothing. The policy is not looked at.
pub fn check(
    table: Table,
    settings: Settings,
    step: u32,
    proposal: &[u16],
    loads: &mut [u32],
) -> Result<(), Refusal>
    ensures { Meets (outcome settings table.rows table.n step proposal.now loads.old) result loads.new }
{
    let n = table.n;
    let processors = usize::from(settings.m);
    let mut springs = Springs::new(settings.notch);
    admit(
        table,
        settings,
        step,
        proposal.len(),
        loads.len(),
        &mut springs,
    )?;
    if let Some(task) = first_out_of_range(&proposal[..n], settings.m) {
        return Err(Refusal::ProcessorOutOfRange(task));
    }
    let held = loads_of(&springs, proposal);
    if let Some(below) = before_overfull(&held[..processors]) {
        return Err(Refusal::ProcessorOverfull(below + 1));
    }
    loads[..processors].copy_from_slice(&held[..processors]);
    Ok(())
}
