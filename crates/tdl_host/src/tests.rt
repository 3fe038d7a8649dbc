ghost use Rattle.std.specs.Prelude.{◌≡◌, ◌≤◌, ◌<◌, [], All, IfOk};
ghost use Rattle.tdl_base.specs.declared.limits.TheConstants.{HORIZON_US};
ghost use Rattle.tdl_node.specs.Machines.{IsOneHost};
ghost use Rattle.tdl_host.specs.CheckedCodes.{HasCheckedModules};
ghost use Rattle.tdl_host.specs.Lasting.{AreLasting};

use crate::HostMachine;
use crate::samples::alone;
use std::alloc::Global;
use std::process::Abort;
use std::test::Fail;
use tdl_base::{FIRST_NODE, Listed, ModeId, ModuleId, NoMemory, TaskId, Us};
use tdl_image::Bundle;
use tdl_make::plain_bundle;
use tdl_node::{Machine, Stop};
use tdl_plain::counting_form;
use tdl_scen::{Sense, TaskTimes};
use tdl_trace::{Row, Rows, Why};

fn counting_bundle(alloc: Global) -> Result<Bundle, NoMemory>
    ensures one_host { IfOk result IsOneHost }
    ensures codes { IfOk result HasCheckedModules }
{
    let form = counting_form(alloc)?;
    plain_bundle(alloc, &form)
}

fn sensed(value: i64) -> [Sense; 1] {
    [Sense {
        module: ModuleId(0),
        sensor: 0,
        at: Us(0),
        value,
    }]
}

fn go_to<M: Machine>(
    alloc: Global,
    machine: &mut M,
    senses: &[Sense],
    end: u64,
    rows: &mut Rows,
) -> Result<(), Stop>
    requires end { end ≤ HORIZON_US }
    requires ready { M.ready machine.old 0 }
    requires empty { rows.old ≡ [] }
{
    for at in 0..end {
        machine.turn(alloc, senses, at, rows)?;
        rows.clear();
        machine.micro(alloc, at)?;
    }
    machine.turn(alloc, senses, end, rows)
}

/// Runs a new machine up to an instant, and leaves the rows of that instant.
fn run_to(
    alloc: Global,
    bundle: &Bundle,
    times: &[TaskTimes],
    value: i64,
    end: u64,
    rows: &mut Rows,
) -> Result<(), Stop>
    requires end { end ≤ HORIZON_US }
    requires one_host { IsOneHost bundle.now }
    requires codes { HasCheckedModules bundle.now }
    requires lasting { AreLasting times.now }
    requires empty { rows.old ≡ [] }
{
    let mut machine = HostMachine::begin(alloc, bundle, times)?;
    go_to(alloc, &mut machine, &sensed(value), end, rows)
}

const MODULE: ModuleId = ModuleId(0);

fn committed(at: u64, value: i64) -> Row {
    Row::Port {
        at: Us(at),
        node: FIRST_NODE,
        module: MODULE,
        task: TaskId(0),
        output: 0,
        value,
    }
}

fn entered(at: u64, mode: u16) -> Row {
    Row::Mode {
        at: Us(at),
        node: FIRST_NODE,
        module: MODULE,
        mode: ModeId(mode),
    }
}

fn check_rows(rt: &impl Abort, rows: &Rows, wanted: &[Row]) {
    assert_eq!(rt; rows.len(), wanted.len());
    for (i, row) in wanted.iter().enumerate() {
        assert_eq!(rt; rows.get(i), Some(row));
    }
}

#[test]
fn counts_in_each_cycle(rt: HostRuntime) -> Result<(), Fail> {
    let alloc = rt.alloc();
    let bundle = counting_bundle(alloc)?;
    let mut rows = Rows::new(alloc);
    run_to(alloc, &bundle, &[], 3, 0, &mut rows)?;
    check_rows(&rt, &rows, &[entered(0, 0)]);
    rows.clear();
    run_to(alloc, &bundle, &[], 3, 5000, &mut rows)?;
    check_rows(&rt, &rows, &[committed(5000, 13)]);
    Ok(())
}

#[test]
fn updates_where_the_guard_holds(rt: HostRuntime) -> Result<(), Fail> {
    let alloc = rt.alloc();
    let bundle = alone(alloc, 13, 2)?;
    let updated = Row::Act {
        at: Us(5),
        node: FIRST_NODE,
        module: MODULE,
        actuator: 0,
        value: 45,
    };
    let mut rows = Rows::new(alloc);
    run_to(alloc, &bundle, &[], 300, 5, &mut rows)?;
    check_rows(&rt, &rows, &[committed(5, 301), updated, entered(5, 1)]);
    let mut rows = Rows::new(alloc);
    run_to(alloc, &bundle, &[], 0, 5, &mut rows)?;
    check_rows(&rt, &rows, &[committed(5, 1), entered(5, 1)]);
    Ok(())
}

#[test]
fn traps(rt: HostRuntime) -> Result<(), Fail> {
    let alloc = rt.alloc();
    let late = alone(alloc, 13, 1)?;
    let mut rows = Rows::new(alloc);
    let end = run_to(alloc, &late, &[], 0, 5, &mut rows);
    assert_eq!(rt; end, Err(Stop::Trapped(Why::Late)));
    let short = alone(alloc, 5, 2)?;
    let mut rows = Rows::new(alloc);
    let end = run_to(alloc, &short, &[], 0, 5, &mut rows);
    assert_eq!(rt; end, Err(Stop::Trapped(Why::Budget)));
    Ok(())
}

// The times of jobs of a task of the module.
fn listed(alloc: Global, task: u16, time: u64) -> Result<TaskTimes, NoMemory>
    requires { 0 < time }
    ensures { IfOk result (λ entry. All (λ time. 0 < time) entry.times) }
{
    Ok(TaskTimes {
        module: MODULE,
        task: TaskId(task),
        times: Listed::only(alloc, time)?,
    })
}

#[test]
fn takes_listed_times_then_the_worst_case(rt: HostRuntime) -> Result<(), Fail> {
    let alloc = rt.alloc();
    let bundle = alone(alloc, 13, 1)?;
    let once = [listed(alloc, 0, 1)?];
    let mut rows = Rows::new(alloc);
    run_to(alloc, &bundle, &once, 0, 5, &mut rows)?;
    check_rows(&rt, &rows, &[committed(5, 1), entered(5, 1)]);
    let mut rows = Rows::new(alloc);
    let end = run_to(alloc, &bundle, &once, 0, 15, &mut rows);
    assert_eq!(rt; end, Err(Stop::Trapped(Why::Late)));
    let twice = [
        listed(alloc, 0, 1)?,
        listed(alloc, 1, 2)?,
        listed(alloc, 0, 1)?,
    ];
    let mut rows = Rows::new(alloc);
    run_to(alloc, &bundle, &twice, 0, 15, &mut rows)?;
    check_rows(&rt, &rows, &[committed(15, 1), entered(15, 1)]);
    Ok(())
}
