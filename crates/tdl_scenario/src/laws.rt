//! Laws of the definitions that this crate's contracts cite. Each function does nothing: its
//! contract is the law.
ghost use Rattle.std.specs.Prelude.{◌≡◌, ℕ, List, []};
ghost use Rattle.tdl_scenario.specs.LawfulScenario.{IsLawful};
ghost use Rattle.tdl_scenario.specs.ReadScenario.{scenario_said};
ghost use Rattle.tdl_scenario.specs.Rules.{lines_said, scenario_faults};
ghost use Rattle.tdl_scenario.specs.declared.plants.PlantPorts.{PlantPorts as Ports};
ghost use Rattle.tdl_trace.specs.declared.names.Names.{Names as Known};

/// What a file without a fault says is a lawful scenario for the parts of these names: its horizon
/// is within the limit, its sensors and tasks are there, values are in their kinds, the times of
/// each sensor rise, jobs take from 1 us to the worst case, and the order is whole.
pub fn lawful_scenario()
    ensures { (names : Known) (plants : List Ports) (bytes : List ℕ) →
        scenario_faults names plants bytes ≡ [] →
        IsLawful names (scenario_said (lines_said names plants bytes)) }
{}
