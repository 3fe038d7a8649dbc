//! Programs that keep all rules.

use crate::verdict::{tree_of, try_sources};
use std::alloc::Global;
use std::test::Fail;
use tdl_base::{Listed, NoMemory};
use tdl_body::Expr;
use tdl_check::check;
use tdl_mode::Module;

const GYRO: &str = "module Gyro { sensor int raw uses gyro_raw; public const int scale = 4;
  public task read [wcet=300us] { input int r; output int rate; rate := r * scale; }
  start mode run [period=5ms] { task [freq=1] read(raw); } }";

const EST: &str = "module Est { import Gyro;
  public task filter [wcet=900us] {
    input int rate; output int est; output boolean slow;
    est := (est + rate) / 2;
    slow := est < 50 && est > -50; }
  start mode run [period=10ms] { task [freq=1] filter(Gyro.read.rate); } }";

const UNORDERED_EST: &str = "module Est { import ^Gyro;
  public task filter [wcet=900us] { input int rate; output int est; output boolean slow; }
  start mode run [period=10ms] { task [freq=1] filter(Gyro.read.rate); } }";

const CTL: &str = "module Ctl { import Est; actuator int torque;
  task law [wcet=1ms] { input int e; input int gain; output int u; u := -(e * gain) / 10; }
  start mode detumble [period=10ms] {
    task [freq=1] law(Est.filter.est, 8);
    update [freq=1] torque := law.u;
    switch [freq=1] to point if Est.filter.slow; }
  mode point [period=20ms] {
    task [freq=2] law(Est.filter.est, 2);
    update [freq=2] torque := law.u;
    switch [freq=1] to detumble if !Est.filter.slow; } }";

// Rules that each keep to their words could leave no program of several modules and modes.
#[test]
fn the_control_of_a_craft_keeps_the_rules(rt: HostRuntime) -> Result<(), Fail> {
    try_sources(&rt, rt.alloc(), 2, &[GYRO, EST, CTL])?;
    try_sources(&rt, rt.alloc(), 2, &[UNORDERED_EST, GYRO, CTL])
}

/// The numbers of the constants, those that actuators and outputs begin with, and those that
/// actuators are updated with where they stand in the program.
fn numbers(alloc: Global, module: &Module) -> Result<Listed<i64>, NoMemory> {
    let mut list = Listed::new(alloc);
    for constant in module.constants.as_slice() {
        list.push(constant.value)?;
    }
    for actuator in module.actuators.as_slice() {
        list.push(actuator.initial)?;
    }
    for task in module.tasks.as_slice() {
        for output in task.outputs.as_slice() {
            list.push(output.initial)?;
        }
    }
    for mode in module.modes.as_slice() {
        for update in mode.updates.as_slice() {
            if let Expr::Const(value) = &update.value {
                list.push(*value)?;
            }
        }
    }
    Ok(list)
}

const NARROWED: &str = "module M { const byte k = 300; const boolean f = true;
  const long least = -9223372036854775807; actuator byte v := -129; actuator short w := 32768;
  task t [wcet=1us] { output short o := 65537; output int p; }
  start mode m [period=1ms] { update [freq=1] v := k; update [freq=1] w := 32768; } }";

// A constant could be read with its literal, which its kind does not hold; a number that stands in
// an expression could be narrowed to the kind of what takes it.
#[test]
fn literals_are_narrowed(rt: HostRuntime) -> Result<(), Fail> {
    let Some(tree) = tree_of(rt.alloc(), NARROWED)? else {
        panic!(rt; "no tree");
    };
    let Ok(checked) = check(rt.alloc(), &[tree]) else {
        panic!(rt; "a fault");
    };
    let Some(module) = checked.program().modules.get(0) else {
        panic!(rt; "no module");
    };
    let wanted = [
        44,
        1,
        -9_223_372_036_854_775_807,
        127,
        -32768,
        1,
        0,
        44,
        32768,
    ];
    let found = numbers(rt.alloc(), module)?;
    assert_eq!(rt; found.as_slice(), wanted.as_slice());
    Ok(())
}

const FAR: &str = "module far { public const byte gain = 300; start mode idle [period=10us] { } }";

const NEAR: &str = "module near { import far; sensor int level; actuator byte valve := -7;
  task mix [wcet=3us] { local int l; input int a; output short o := 70000; o := a; }
  mode rest [period=10us] { }
  start mode work [period=12us] {
    task [freq=4, slots=1-2, 4] mix(level + far.gain);
    update [freq=3] valve := mix.o;
    switch [freq=2, slots=2] to rest if level < 5; } }";

/// The starts and ends of a module's invocations, the offsets of its updates and of its switches.
fn instants(alloc: Global, module: &Module) -> Result<Listed<u64>, NoMemory> {
    let mut list = Listed::new(alloc);
    for mode in module.modes.as_slice() {
        for invocation in mode.invocations.as_slice() {
            list.push(invocation.s.0)?;
            list.push(invocation.e.0)?;
        }
        for update in mode.updates.as_slice() {
            list.push(update.at.0)?;
        }
        for switch in mode.switches.as_slice() {
            list.push(switch.at.0)?;
        }
    }
    Ok(list)
}

// Tables could always ask for memory in vain, and no program would ever be made.
#[test]
fn a_program_of_two_sources(rt: HostRuntime) -> Result<(), Fail> {
    let alloc = rt.alloc();
    let Some(far) = tree_of(alloc, FAR)? else {
        panic!(rt; "no first tree");
    };
    let Some(near) = tree_of(alloc, NEAR)? else {
        panic!(rt; "no second tree");
    };
    let Ok(checked) = check(alloc, &[far, near]) else {
        panic!(rt; "a fault");
    };
    let Some(module) = checked.program().modules.get(1) else {
        panic!(rt; "no second module");
    };
    let wanted = [0u64, 6, 9, 12, 4, 8, 12, 12];
    assert_eq!(rt; instants(alloc, module)?.as_slice(), wanted.as_slice());
    assert_eq!(rt; module.start.0, 1);
    assert_eq!(rt; module.imports.len(), 1);
    let counts = [
        module.sensors.len(),
        module.actuators.len(),
        module.tasks.len(),
    ];
    assert_eq!(rt; counts, [1, 1, 1]);
    Ok(())
}
