ghost use Rattle.std.specs.Prelude.{◌≡◌, ◌≤◌, ◌++◌, length, IfOk, OnOk};
ghost use Rattle.tdl_base.specs.declared.limits.TheConstants.{OCCURRENCES};
ghost use Rattle.tdl_rules.specs.Times.{time_us};
ghost use Rattle.tdl_program.specs.Activities as activities;

use crate::home::Home;
use std::alloc::Global;
use tdl_base::{Listed, NoMemory, Us};
use tdl_mode::Update;
use tdl_slots::chosen_by;
use tdl_tree::{Act, ActKind, ExprTree, Id, Time};

/// An activity as the update of an actuator at an offset.
fn update_at(
    alloc: Global,
    home: &Home,
    number: u16,
    act: &Act,
    actuator: &Id,
    value: &ExprTree,
    offset: u64,
) -> Result<Update, NoMemory>
    ensures { IfOk result (λ made. made ≡
        activities.update_at home.now number act.now actuator.now value.now offset) }
{
    Ok(Update {
        act: number,
        actuator: home.actuator(actuator),
        at: Us(offset),
        value: home.expression(alloc, value)?,
        guard: home.guard(alloc, &act.guard)?,
    })
}

/// Appends the updates of an activity: one for each chosen slot.
fn put_updates(
    alloc: Global,
    home: &Home,
    period: &Time,
    number: u16,
    act: &Act,
    into: &mut Listed<Update>,
) -> Result<(), NoMemory>
    ensures { OnOk result (into.new ≡ into.old ++
        activities.updates_in home.now (time_us period.now) number act.now act.now.what) }
{
    let ActKind::Update { actuator, value } = &act.what else {
        return Ok(());
    };
    let offsets = chosen_by(period, act).offsets(alloc)?;
    for offset in offsets.as_slice() {
        into.push(update_at(alloc, home, number, act, actuator, value, *offset)?)?;
    }
    Ok(())
}

/// The updates of a mode of this period, in order of its activities.
pub(crate) fn updates_of(
    alloc: Global,
    home: &Home,
    period: &Time,
    acts: &[Act],
) -> Result<Listed<Update>, NoMemory>
    requires { length acts.now ≤ OCCURRENCES }
    ensures { IfOk result (λ list. list ≡
        activities.updates_of home.now (time_us period.now) acts.now) }
{
    let mut list = Listed::new(alloc);
    let mut number = 0;
    for act in acts {
        put_updates(alloc, home, period, number, act, &mut list)?;
        number += 1;
    }
    Ok(list)
}
