ghost use Rattle.std.specs.Prelude.{◌≡◌, nat_lt, length, filter, option_map, unwrap_or, false, slice_get};
ghost use Rattle.tdl_deploy.specs.AtRelease.{worst_case_of};
ghost use Rattle.tdl_deploy.specs.Passes.{is_bus_of};
ghost use Rattle.tdl_deploy.specs.Placed.{is_remote};
ghost use Rattle.tdl_window.specs.Broken.{time_given, buses_due};

use crate::found::Call;
use crate::remote::is_remote;
use crate::walk::OnInvocation;
use tdl_base::{ModuleId, TaskId};
use tdl_deploy::{Placement, Window};
use tdl_mode::{Invocation, Module, Program};

/// The worst case of a task of a module in microseconds, 0 where there is none.
fn worst_case_of(owner: &Module, task: TaskId) -> u64
    ensures { result ≡ worst_case_of owner.now task.0 }
{
    match owner.tasks.get(usize::from(task.0)) {
        None => 0,
        Some(definition) => definition.worst.0,
    }
}

/// Whether the processor windows of an invocation sum to less than so many microseconds.
fn gives_less(windows: &[Window], call: Call, needed: u64) -> bool
    ensures { result ≡
        nat_lt (time_given windows.now call.«module».0 call.mode.0 call.number) needed }
{
    let mut left = needed;
    for window in windows {
        if call.has_cpu(window) {
            left = left.saturating_sub(u64::from(window.length));
        }
    }
    left > 0
}

/// S4: the processor windows of an invocation sum to its worst case at least.
#[derive(Drop)]
pub(crate) struct HasTime<'a> {
    pub(crate) windows: &'a [Window],
}

impl<'a> OnInvocation for HasTime<'a> {
    ghost use Rattle.tdl_window.specs.Broken.{lacks_time};

    ghost breaks = { λ it. lacks_time it.windows.now };

    fn is_broken(&self, call: Call, owner: &Module, invocation: &Invocation) -> bool {
        gives_less(self.windows, call, worst_case_of(owner, invocation.task))
    }
}

/// How many bus windows an invocation has.
fn count_buses(windows: &[Window], call: Call) -> usize
    ensures { result ≡
        length (filter (is_bus_of call.«module».0 call.mode.0 call.number) windows.now) }
{
    let mut count = 0;
    for window in windows {
        if call.has_bus(window) {
            count += 1;
        }
    }
    count
}

/// Whether a task of a module is there and remote.
fn calls_remote(
    program: &Program,
    placement: &Placement,
    module: ModuleId,
    owner: &Module,
    task: TaskId,
) -> bool
    ensures { result ≡ unwrap_or (option_map
        (is_remote program.now placement.now «module».0) (slice_get owner.now.tasks task.0)) false }
{
    match owner.tasks.get(usize::from(task.0)) {
        None => false,
        Some(definition) => is_remote(program, placement, module, definition),
    }
}

/// S5: a remote invocation has one bus window, and another has none.
#[derive(Drop)]
pub(crate) struct HasBuses<'a> {
    pub(crate) program: &'a Program,
    pub(crate) placement: &'a Placement,
    pub(crate) windows: &'a [Window],
}

impl<'a> OnInvocation for HasBuses<'a> {
    ghost use Rattle.tdl_window.specs.Broken.{has_other_buses};

    ghost breaks = { λ it.
        has_other_buses it.program.now it.placement.now it.windows.now };

    fn is_broken(&self, call: Call, owner: &Module, invocation: &Invocation) -> bool {
        let task = invocation.task;
        let is_due = calls_remote(self.program, self.placement, call.module, owner, task);
        count_buses(self.windows, call) != usize::from(is_due)
    }
}
