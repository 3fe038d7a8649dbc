ghost use Rattle.std.specs.Prelude.{◌≡◌, ◌≤◌, [], length, OnOk, IfOk, IfErr};
ghost use Rattle.tdl_base.specs.declared.limits.TheConstants.{SCENARIO_BYTES};
ghost use Rattle.tdl_scenario.specs.ReadScenario.{TellsFirst, scenario_said};
ghost use Rattle.tdl_scenario.specs.Rules.{scenario_faults, lines_said};
ghost use Rattle.tdl_scenario.specs.declared.plants.TheConstants.{PLANTS};

use crate::build::scenario_said;
use crate::faults::first_fault;
use crate::gather::gather;
use crate::{PlantPorts, ScenError};
use std::alloc::Global;
use tdl_lines::line_after;
use tdl_scen::Scenario;
use tdl_trace::Names;

/// Reads a scenario for parts of these names and plants with these ports. Where a rule is broken,
/// the first fault by line and rule is told.
pub fn read_scen(
    alloc: Global,
    bytes: &[u8],
    names: &Names,
    plants: &[PlantPorts],
) -> Result<Scenario, ScenError>
    requires file { length bytes.now ≤ SCENARIO_BYTES }
    requires plants { length plants.now ≤ PLANTS }
    ensures lawful { OnOk result (scenario_faults names.now plants.now bytes.now ≡ []) }
    ensures said { IfOk result (λ s.
        s ≡ scenario_said (lines_said names.now plants.now bytes.now)) }
    ensures err { IfErr result (λ e.
        TellsFirst e (scenario_faults names.now plants.now bytes.now)) }
{
    let lines = gather(alloc, bytes, names, plants)?;
    match first_fault(alloc, names.nodes.len(), line_after(bytes), &lines)? {
        None => Ok(scenario_said(alloc, lines)?),
        Some(fault) => Err(ScenError::BadScenario(fault)),
    }
}
