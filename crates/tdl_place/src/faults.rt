ghost use Rattle.std.specs.Prelude.{◌≡◌, OnOk};
ghost use Rattle.tdl_lines.specs.Faults.{earliest};
ghost use Rattle.tdl_place.specs.PlacementRules.{many_faults, whole_faults};

use crate::gather::Gathered;
use crate::remote::{has_unplaced, lacks_bus};
use crate::rules::{note_beyond, note_twice_named, note_twice_placed};
use std::alloc::Global;
use tdl_base::NoMemory;
use tdl_base::limits::NODES;
use tdl_deploy::Placement;
use tdl_lines::{Fault, note_if};
use tdl_mode::Program;

/// Notes the rules that lines break beside one another.
pub(crate) fn note_many(
    alloc: Global,
    gathered: &Gathered,
    best: &mut Option<Fault>,
) -> Result<(), NoMemory>
    ensures { OnOk result (best.new ≡ earliest best.old
        (many_faults gathered.now.nodes.items gathered.now.buses.items)) }
{
    note_beyond(&gathered.buses, 1, 1, best);
    note_twice_placed(alloc, &gathered.nodes, best)?;
    note_twice_named(&gathered.nodes, best);
    note_beyond(&gathered.nodes, NODES, 5, best);
    Ok(())
}

/// Notes the rules that a placement breaks as a whole, at the number of no line.
pub(crate) fn note_whole(
    program: &Program,
    placement: &Placement,
    after_all: u32,
    best: &mut Option<Fault>,
)
    ensures { best.new ≡ earliest best.old (whole_faults program.now after_all placement.now) }
{
    note_if(best, has_unplaced(program, placement), after_all, 4);
    note_if(best, lacks_bus(program, placement), after_all, 6);
}
