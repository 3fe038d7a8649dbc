ghost use Rattle.std.specs.Prelude.{◌≡◌, ◌≤◌, [], length, OnOk, IfOk, IfErr};
ghost use Rattle.tdl_lines.specs.declared.lines.TheConstants.{FILE_BYTES};
ghost use Rattle.tdl_place.specs.PlacementRules.{lines_said, placement_faults, TellsFirst};
ghost use Rattle.tdl_place.specs.SaidPlaces.{placement_of, placement_said};
ghost use Rattle.tdl_place.specs.declared.limits.TheConstants.{MODULES};

use crate::PlaceError;
use crate::build::{first_cost, nodes_of};
use crate::faults::{note_many, note_whole};
use crate::gather::{Gathered, gather};
use std::alloc::Global;
use tdl_base::NoMemory;
use tdl_deploy::Placement;
use tdl_lines::line_after;
use tdl_mode::Program;

/// The placement that lines say.
fn placement_of(alloc: Global, gathered: Gathered) -> Result<Placement, NoMemory>
    ensures { IfOk result (λ placement.
        placement ≡ placement_of gathered.nodes.items gathered.buses.items) }
{
    let bus = first_cost(&gathered.buses);
    let nodes = nodes_of(alloc, gathered.nodes)?;
    Ok(Placement { nodes, bus })
}

/// Reads a placement of the modules of a program. Where a rule is broken, the first fault by line
/// and rule is told.
pub fn read_place(alloc: Global, bytes: &[u8], program: &Program) -> Result<Placement, PlaceError>
    requires file { length bytes.now ≤ FILE_BYTES }
    requires modules { length program.now.modules ≤ MODULES }
    ensures lawful { OnOk result (placement_faults program.now bytes.now ≡ []) }
    ensures said { IfOk result (λ placement.
        placement ≡ placement_said (lines_said program.now bytes.now)) }
    ensures err { IfErr result (λ e. TellsFirst e (placement_faults program.now bytes.now)) }
{
    let gathered = gather(alloc, bytes, program)?;
    let mut best = gathered.first;
    note_many(alloc, &gathered, &mut best)?;
    let placement = placement_of(alloc, gathered)?;
    note_whole(program, &placement, line_after(bytes), &mut best);
    match best {
        None => Ok(placement),
        Some(fault) => Err(PlaceError::BadPlacement(fault)),
    }
}
