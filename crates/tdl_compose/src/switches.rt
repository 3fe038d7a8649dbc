ghost use Rattle.std.specs.Prelude.{◌≡◌, ◌≤◌, ◌++◌, length, IfOk, OnOk};
ghost use Rattle.tdl_base.specs.declared.limits.TheConstants.{OCCURRENCES};
ghost use Rattle.tdl_rules.specs.Times.{time_us};
ghost use Rattle.tdl_program.specs.Activities as activities;

use crate::home::Home;
use std::alloc::Global;
use tdl_base::{Listed, NoMemory, Us};
use tdl_mode::Switch;
use tdl_slots::chosen_by;
use tdl_tree::{Act, ActKind, Id, Time};

/// An activity as a switch at an offset.
fn switch_at(
    alloc: Global,
    home: &Home,
    number: u16,
    act: &Act,
    target: &Id,
    offset: u64,
) -> Result<Switch, NoMemory>
    ensures { IfOk result (λ made. made ≡
        activities.switch_at home.now number act.now target.now offset) }
{
    Ok(Switch {
        act: number,
        at: Us(offset),
        target: home.mode(target),
        guard: home.guard(alloc, &act.guard)?,
    })
}

/// Appends the switches of an activity: one for each chosen slot.
fn put_switches(
    alloc: Global,
    home: &Home,
    period: &Time,
    number: u16,
    act: &Act,
    into: &mut Listed<Switch>,
) -> Result<(), NoMemory>
    ensures { OnOk result (into.new ≡ into.old ++
        activities.switches_in home.now (time_us period.now) number act.now act.now.what) }
{
    let ActKind::Switch { target } = &act.what else {
        return Ok(());
    };
    let offsets = chosen_by(period, act).offsets(alloc)?;
    for offset in offsets.as_slice() {
        into.push(switch_at(alloc, home, number, act, target, *offset)?)?;
    }
    Ok(())
}

/// The switches of a mode of this period, in order of its activities.
pub(crate) fn switches_of(
    alloc: Global,
    home: &Home,
    period: &Time,
    acts: &[Act],
) -> Result<Listed<Switch>, NoMemory>
    requires { length acts.now ≤ OCCURRENCES }
    ensures { IfOk result (λ list. list ≡
        activities.switches_of home.now (time_us period.now) acts.now) }
{
    let mut list = Listed::new(alloc);
    let mut number = 0;
    for act in acts {
        put_switches(alloc, home, period, number, act, &mut list)?;
        number += 1;
    }
    Ok(list)
}
