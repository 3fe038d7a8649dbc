ghost use Rattle.std.specs.Prelude.{◌≡◌, ◌≤◌, List, [], length, OnOk, IfOk, IfErr};
ghost use Rattle.tdl_base.specs.Lists.{first_of};
ghost use Rattle.tdl_base.specs.declared.limits.TheConstants.{WINDOWS};
ghost use Rattle.tdl_deploy.specs.Passes.{Passes};
ghost use Rattle.tdl_window.specs.Faults.{TellsFirst, sched_faults};
ghost use Rattle.tdl_window.specs.Faults.{told, window_faults, call_faults, frame_faults, pair_faults};
ghost use Rattle.tdl_window.specs.declared.error.SchedAt.{SchedAt as Where};
ghost use Rattle.tdl_window.specs.GrainOf.{grains_of};
ghost use Rattle.tdl_window.specs.Granted.{AreSmall, IsGranted};

use crate::calls::{HasBuses, HasTime};
use crate::error::Fault;
use crate::modulo::grains_of;
use crate::pairs::{Apart, ApartOnBus, ApartOnNode};
use crate::timely::{HoldsFrame, Lasts, Timely};
use crate::walk::{first_call, first_pair, first_window};
use crate::{SchedAt, TestError, Tested};
use std::alloc::Global;
use tdl_deploy::{Placement, Schedule};
use tdl_mode::Program;

/// The fault that a rule is broken, where it is broken somewhere.
fn told(rule: u8, at: Option<SchedAt>) -> Option<Fault>
    ensures { (places : List Where) → at ≡ first_of places →
        result ≡ first_of (told rule places) }
{
    match at {
        None => None,
        Some(at) => Some(Fault { rule, at }),
    }
}

/// S2 and S3.
fn window_fault(program: &Program, schedule: &Schedule) -> Option<Fault>
    requires { length schedule.now.windows ≤ WINDOWS }
    ensures { result ≡ first_of (window_faults program.now schedule.now) }
{
    let windows = schedule.windows.as_slice();
    if let Some(fault) = told(2, first_window(&Lasts, windows)) {
        return Some(fault);
    }
    told(3, first_window(&Timely { program, windows }, windows))
}

/// S4 and S5.
fn call_fault(program: &Program, placement: &Placement, schedule: &Schedule) -> Option<Fault>
    requires { AreSmall program.now }
    ensures { result ≡ first_of (call_faults program.now placement.now schedule.now) }
{
    let windows = schedule.windows.as_slice();
    if let Some(fault) = told(4, first_call(&HasTime { windows }, program)) {
        return Some(fault);
    }
    let buses = HasBuses {
        program,
        placement,
        windows,
    };
    told(5, first_call(&buses, program))
}

/// S6.
fn frame_fault(program: &Program, placement: &Placement, schedule: &Schedule) -> Option<Fault>
    requires { length schedule.now.windows ≤ WINDOWS }
    ensures { result ≡ first_of (frame_faults program.now placement.now schedule.now) }
{
    let held = HoldsFrame { program, placement };
    told(6, first_window(&held, schedule.windows.as_slice()))
}

/// S7, S8 and S9.
fn pair_fault(placement: &Placement, grains: &[u64], schedule: &Schedule) -> Option<Fault>
    requires { length schedule.now.windows ≤ WINDOWS }
    ensures { result ≡ first_of (pair_faults placement.now grains.now schedule.now) }
{
    let windows = schedule.windows.as_slice();
    if let Some(fault) = told(7, first_pair(&Apart, windows)) {
        return Some(fault);
    }
    if let Some(fault) = told(8, first_pair(&ApartOnNode { placement, grains }, windows)) {
        return Some(fault);
    }
    told(9, first_pair(&ApartOnBus { grains }, windows))
}

/// The first fault of a schedule, where the grains of the program's modules are given.
fn first_fault(
    program: &Program,
    placement: &Placement,
    grains: &[u64],
    schedule: &Schedule,
) -> Option<Fault>
    requires granted { IsGranted program.now schedule.now }
    requires grains { grains.now ≡ grains_of program.now }
    ensures { result ≡ first_of (sched_faults program.now placement.now schedule.now) }
{
    if let Some(fault) = window_fault(program, schedule) {
        return Some(fault);
    }
    if let Some(fault) = call_fault(program, placement, schedule) {
        return Some(fault);
    }
    if let Some(fault) = frame_fault(program, placement, schedule) {
        return Some(fault);
    }
    pair_fault(placement, grains, schedule)
}

/// Tests a schedule of a program on a placement: where it breaks a rule, the first fault by rule
/// and place is told. It takes memory for one number a module.
pub fn test<'a>(
    alloc: Global,
    program: &'a Program,
    placement: &'a Placement,
    schedule: Schedule,
) -> Result<Tested<'a>, TestError>
    requires { IsGranted program.now schedule }
    ensures tested { IfOk result (λ tested. tested ≡ record {
      program = program.now;
      placement = placement.now;
      schedule = schedule;
    }) }
    ensures kept { OnOk result (sched_faults program.now placement.now schedule ≡ []) }
    ensures passes { OnOk result (Passes program.now placement.now schedule) }
    ensures err { IfErr result (λ e.
        TellsFirst e (sched_faults program.now placement.now schedule)) }
{
    let grains = grains_of(alloc, program)?;
    match first_fault(program, placement, grains.as_slice(), &schedule) {
        None => Ok(Tested {
            program,
            placement,
            schedule,
        }),
        Some(fault) => Err(TestError::BadSchedule {
            rule: fault.rule,
            at: fault.at,
        }),
    }
}
