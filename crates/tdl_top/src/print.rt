ghost use Rattle.std.specs.Prelude.{OnOk, IfErr};
ghost use Rattle.tdl_io.specs.Outside.{Appends};
ghost use Rattle.tdl_scenario.specs.LawfulScenario.{IsLawful};
ghost use Rattle.tdl_verify.specs.Texts.{bundle_names, bundle_text};
ghost use Rattle.tdl_make.specs.PlainBundle.{IsPlainBundle};
ghost use Rattle.tdl_report.specs.Calls.{sink_call};
ghost use Rattle.tdl_top.specs.Loads.{PrintSays};

use std::alloc::Global;
use tdl_host::HostMachine;
use tdl_image::Bundle;
use tdl_io::Sink;
use tdl_node::{NodeFault, bundle_names, run};
use tdl_report::Status;
use tdl_scen::Scenario;

/// Runs a plain bundle under a scenario, and puts the line of each row. Such a bundle never traps.
pub fn print_run<O: Sink>(
    alloc: Global,
    bundle: &Bundle,
    scenario: &Scenario,
    out: &mut O,
) -> Result<(), Status>
    requires plain { IsPlainBundle bundle.now }
    requires lawful { IsLawful (bundle_names bundle.now) scenario.now }
    ensures ok { OnOk result (Appends (O.told out.old).contents (O.told out.new).contents
        (bundle_text bundle.now scenario.now)) }
    ensures refused { IfErr result (PrintSays (sink_call O.told out.old out.new)
        (bundle_text bundle.now scenario.now)) }
{
    let names = bundle_names(alloc, bundle)?;
    let times = scenario.times.as_slice();
    let mut machine = HostMachine::begin(alloc, bundle, times)?;
    let senses = scenario.senses.as_slice();
    let horizon = scenario.horizon.0;
    match run(alloc, bundle, &names, &mut machine, senses, horizon, out) {
        Ok(()) => Ok(()),
        Err(NodeFault::Trapped(_)) => unreachable!(),
        Err(NodeFault::WriteFailed) => Err(Status::WriteFailed),
        Err(NodeFault::NoMemory) => Err(Status::NoMemory),
    }
}
