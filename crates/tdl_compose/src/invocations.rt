ghost use Rattle.std.specs.Prelude.{◌≡◌, ◌≤◌, ◌++◌, length, IfOk, OnOk};
ghost use Rattle.tdl_base.specs.declared.limits.TheConstants.{OCCURRENCES};
ghost use Rattle.tdl_rules.specs.Times.{time_us};
ghost use Rattle.tdl_program.specs.Activities as activities;
ghost use Rattle.tdl_slots.specs.Choices.{let_of};

use crate::home::Home;
use std::alloc::Global;
use tdl_base::{Listed, NoMemory, Us};
use tdl_mode::Invocation;
use tdl_slots::{Span, chosen_by};
use tdl_tree::{Act, ActKind, ExprTree, Id, Time};

/// An activity as the invocation of a task over a logical execution time.
fn invocation_over(
    alloc: Global,
    home: &Home,
    number: u16,
    act: &Act,
    task: &Id,
    args: &[ExprTree],
    span: Span,
) -> Result<Invocation, NoMemory>
    ensures { IfOk result (λ made. made ≡
        activities.invocation_over home.now number act.now task.now args.now (let_of span)) }
{
    Ok(Invocation {
        act: number,
        task: home.task(task),
        s: Us(span.start),
        e: Us(span.end),
        guard: home.guard(alloc, &act.guard)?,
        args: home.expressions(alloc, args)?,
    })
}

/// Appends the invocations of an activity: one for each range.
fn put_invocations(
    alloc: Global,
    home: &Home,
    period: &Time,
    number: u16,
    act: &Act,
    into: &mut Listed<Invocation>,
) -> Result<(), NoMemory>
    ensures { OnOk result (into.new ≡ into.old ++
        activities.invocations_in home.now (time_us period.now) number act.now act.now.what) }
{
    let ActKind::Task { task, args } = &act.what else {
        return Ok(());
    };
    let spans = chosen_by(period, act).spans(alloc)?;
    for span in spans.as_slice() {
        let args = args.as_slice();
        into.push(invocation_over(alloc, home, number, act, task, args, *span)?)?;
    }
    Ok(())
}

/// The invocations of a mode of this period, in order of its activities.
pub(crate) fn invocations_of(
    alloc: Global,
    home: &Home,
    period: &Time,
    acts: &[Act],
) -> Result<Listed<Invocation>, NoMemory>
    requires { length acts.now ≤ OCCURRENCES }
    ensures { IfOk result (λ list. list ≡
        activities.invocations_of home.now (time_us period.now) acts.now) }
{
    let mut list = Listed::new(alloc);
    let mut number = 0;
    for act in acts {
        put_invocations(alloc, home, period, number, act, &mut list)?;
        number += 1;
    }
    Ok(list)
}
