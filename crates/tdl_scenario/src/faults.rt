ghost use Rattle.std.specs.Prelude.{◌≡◌, [], None, IfOk};
ghost use Rattle.std.specs.List.{list_any};
ghost use Rattle.tdl_lines.specs.Faults.{earliest};
ghost use Rattle.tdl_scenario.specs.Rules.{is_horizon, faults_after, faults_of};

use crate::entry::Entry;
use crate::rules::note_line;
use crate::seen::Seen;
use std::alloc::Global;
use tdl_base::NoMemory;
use tdl_lines::{Fault, Said, note_if};

/// Whether a line is a horizon.
fn is_horizon(said: &Said<Entry>) -> bool
    ensures { result ≡ is_horizon said.now }
{
    matches!(said.what, Entry::Horizon(_))
}

/// Whether a horizon is said.
fn has_horizon(lines: &[Said<Entry>]) -> bool
    ensures { result ≡ list_any is_horizon lines.now }
{
    lines.iter().any(|said| is_horizon(said))
}

/// The first fault of lines, each after those before it.
fn first_in_lines(
    alloc: Global,
    nodes: usize,
    lines: &[Said<Entry>],
) -> Result<Option<Fault>, NoMemory>
    ensures { IfOk result (λ first. first ≡ earliest None (faults_after nodes [] lines.now)) }
{
    let mut seen = Seen::new(alloc);
    let mut best = None;
    for said in lines {
        note_line(nodes, &seen, said, &mut best);
        seen.learn(&said.what)?;
    }
    Ok(best)
}

/// The first fault of all lines of a file, after which a line would have the number `after_all`.
pub(crate) fn first_fault(
    alloc: Global,
    nodes: usize,
    after_all: u32,
    lines: &[Said<Entry>],
) -> Result<Option<Fault>, NoMemory>
    ensures { IfOk result (λ first.
        first ≡ earliest None (faults_of nodes after_all lines.now)) }
{
    let mut best = first_in_lines(alloc, nodes, lines)?;
    note_if(&mut best, !has_horizon(lines), after_all, 1);
    Ok(best)
}
