ghost use Rattle.std.specs.Prelude.{◌≡◌, ◌≤◌, ◌∷◌, [], All, length, IfOk};
ghost use Rattle.tdl_scen.specs.declared.entries.Scenario.{Scenario};
ghost use Rattle.tdl_image.specs.declared.hosted.CallEntry.{CallEntry};
ghost use Rattle.tdl_verify.specs.Texts.{times_in};
ghost use Rattle.tdl_node.specs.Machines.{IsOneHost, IsOffBus, IsBegun};
ghost use Rattle.tdl_host.specs.CheckedCodes.{HasCheckedModules};
ghost use Rattle.tdl_host.specs.Lasting.{AreLasting};

use crate::micro::run_micro;
use crate::seen::Scene;
use crate::state::HostState;
use crate::turn::run_turn;
use std::alloc::Global;
use std::marker::Model;
use tdl_base::NoMemory;
use tdl_image::{Bundle, CallEntry};
use tdl_node::{Machine, Stop};
use tdl_scen::{Sense, TaskTimes};
use tdl_trace::Rows;

/// A node that hosts one module, whose codes are lawful: the module's tables and state, the listed
/// times of jobs, and room for the arguments of each of its calls.
#[derive(Drop)]
pub struct HostMachine<'a> {
    declared: u32,
    times: &'a [TaskTimes],
    state: HostState<'a>,
    numbers: Vec<i64>,
}

impl<'a> Model for HostMachine<'a> {
    ghost use Rattle.std.specs.Prelude.{length};
    ghost use Rattle.tdl_host.specs.CheckedCodes.{HasRoom};
    ghost use Rattle.tdl_host.specs.Lasting.{AreLasting};
    ghost use Rattle.tdl_host.specs.Hosts.{HostView};

    ghost Value = { HostView };

    ghost view = { λ m. record {
      host = m.state.host;
      times = m.times.now;
      declared = m.declared;
      now = m.state.now;
    } };

    ghost invariant = { λ m. HasRoom m.state.host (length m.numbers.items)
        × AreLasting m.times.now };
}

fn greater(a: usize, b: usize) -> usize
    ensures left { a ≤ result }
    ensures right { b ≤ result }
{
    if a < b {
        return b;
    }
    a
}

// The greatest number of arguments of a call.
fn most_arguments(calls: &[CallEntry]) -> usize
    ensures { All (λ (call : CallEntry). length call.args ≤ result) calls.now }
{
    let mut most = 0;
    for call in calls {
        most = greater(most, call.args.len());
    }
    most
}

impl<'a> HostMachine<'a> {
    /// The machine before instant 0: no mode, and a trigger at 0 for the entry block. Its jobs take
    /// the listed times, otherwise their worst cases.
    pub fn begin(
        alloc: Global,
        bundle: &'a Bundle,
        times: &'a [TaskTimes],
    ) -> Result<HostMachine<'a>, NoMemory>
        requires one_host { IsOneHost bundle.now }
        requires codes { HasCheckedModules bundle.now }
        requires lasting { AreLasting times.now }
        ensures begun { IfOk result
            (λ machine. IsBegun bundle.now (⟦<HostMachine<'a> as Machine>⟧.declared machine)
            (⟦<HostMachine<'a> as Machine>⟧.parts machine)) }
        ensures ready { IfOk result (λ machine. ⟦<HostMachine<'a> as Machine>⟧.ready machine 0) }
        ensures off_bus { IfOk result
            (λ machine. IsOffBus (⟦<HostMachine<'a> as Machine>⟧.parts machine)) }
        ensures times { IfOk result
            (λ machine. (s : Scenario) → s.times ≡ times.now →
            ⟦<HostMachine<'a> as Machine>⟧.times machine ≡ times_in bundle.now s) }
    {
        let Some(image) = bundle.images.get(0) else {
            unreachable!();
        };
        let Some(hosted) = image.hosted.get(0) else {
            unreachable!();
        };
        let state = HostState::first(alloc, hosted)?;
        let numbers = vec![in alloc; 0i64; most_arguments(hosted.calls.as_slice())]?;
        Ok(HostMachine {
            declared: image.declared,
            times,
            state,
            numbers,
        })
    }
}

impl Machine for HostMachine<'_> {
    ghost use Rattle.std.specs.Prelude.{◌∷◌, [], ◌*◌, ◌^◌};
    ghost use Rattle.tdl_verify.specs.States.{Part};
    ghost use Rattle.tdl_host.specs.Hosts.{HasReleased, listed_times};

    ghost declared = { λ m. m.declared };

    ghost parts = { λ m. Part.Host m.host m.now ∷ [] };

    ghost times = { λ m. listed_times m.host m.times };

    ghost ready = { λ m x. HasReleased (x * 2 ^ 32) m.now };

    fn turn(
        &mut self,
        _alloc: Global,
        senses: &[Sense],
        at: u64,
        rows: &mut Rows,
    ) -> Result<(), Stop> {
        let scene = Scene {
            times: self.times,
            senses,
            at: at as u32,
        };
        run_turn(
            scene,
            self.declared,
            &mut self.state,
            &mut self.numbers,
            rows,
        )
    }

    fn micro(&mut self, _alloc: Global, at: u64) -> Result<(), Stop> {
        run_micro(&mut self.state, at as u32)
    }
}
