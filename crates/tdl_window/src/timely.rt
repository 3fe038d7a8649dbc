ghost use Rattle.std.specs.Prelude.{◌≡◌, ◌+◌, ◌*◌, ◌≤◌};
ghost use Rattle.tdl_window.specs.Broken.{lies_in, many_bytes, frame_time};
ghost use Rattle.tdl_deploy.specs.Placed.{frame_len, duration_of};

use crate::found::{call_of, called, is_bus};
use crate::walk::OnWindow;
use tdl_base::width;
use tdl_deploy::{BusCost, Placement, Window};
use tdl_mode::{Invocation, Module, Program, Task};

/// S2: a window lasts.
#[derive(Drop)]
pub(crate) struct Lasts;

impl OnWindow for Lasts {
    ghost use Rattle.tdl_window.specs.Broken.{lasts_no_time};

    ghost breaks = { λ _ w. lasts_no_time w };

    fn is_broken(&self, window: &Window) -> bool {
        window.length == 0
    }
}

/// Whether a window lies between two offsets, in microseconds from the start of the cycle.
fn lies_in(from: u64, to: u64, window: &Window) -> bool
    ensures { result ≡ lies_in from to window.now }
{
    let offset = u64::from(window.offset);
    from <= offset && offset + u64::from(window.length) <= to
}

/// S3: a processor window lies between the start and the deadline of its invocation.
#[derive(Drop)]
pub(crate) struct Timely<'a> {
    pub(crate) program: &'a Program,
    pub(crate) windows: &'a [Window],
}

impl<'a> OnWindow for Timely<'a> {
    ghost use Rattle.tdl_window.specs.Broken.{is_untimely};

    ghost breaks = { λ it w.
        is_untimely it.program.now (record { windows = it.windows.now }) w };

    fn is_broken(&self, window: &Window) -> bool {
        if is_bus(window) {
            return false;
        }
        match called(self.program, window) {
            None => false,
            Some((_, invocation)) => {
                let end = call_of(window).deadline(self.windows, invocation.e.0);
                !lies_in(invocation.s.0, end, window)
            }
        }
    }
}

/// The bytes of a frame of a task.
fn frame_len(task: &Task) -> u128
    ensures exact { result ≡ frame_len task.now }
    ensures bound { result ≤ many_bytes }
{
    let mut bytes = 7;
    for output in task.outputs.as_slice() {
        bytes += u128::from(width(output.kind));
    }
    bytes
}

/// What so many bytes take of the bus, in microseconds.
fn time_of(cost: BusCost, bytes: u128) -> u128
    requires { bytes ≤ many_bytes }
    ensures { result ≡ cost.overhead + bytes * cost.per_byte }
{
    u128::from(cost.overhead) + bytes * u128::from(cost.per_byte)
}

/// What a frame of a task takes of the bus, in microseconds.
fn duration_of(placement: &Placement, task: &Task) -> u128
    ensures { result ≡ duration_of placement.now task.now }
{
    match placement.bus {
        None => 0,
        Some(cost) => time_of(cost, frame_len(task)),
    }
}

/// What a frame of the task of an invocation takes of the bus, in microseconds.
fn frame_time(placement: &Placement, owner: &Module, invocation: &Invocation) -> u128
    ensures { result ≡ frame_time placement.now owner.now invocation.now }
{
    match owner.tasks.get(usize::from(invocation.task.0)) {
        None => 0,
        Some(task) => duration_of(placement, task),
    }
}

/// S6: a bus window lies between the start and the end of its invocation, and holds the frame.
#[derive(Drop)]
pub(crate) struct HoldsFrame<'a> {
    pub(crate) program: &'a Program,
    pub(crate) placement: &'a Placement,
}

impl<'a> OnWindow for HoldsFrame<'a> {
    ghost use Rattle.tdl_window.specs.Broken.{holds_no_frame};

    ghost breaks = { λ it w. holds_no_frame it.program.now it.placement.now w };

    fn is_broken(&self, window: &Window) -> bool {
        if !is_bus(window) {
            return false;
        }
        match called(self.program, window) {
            None => false,
            Some((owner, invocation)) => {
                let needed = frame_time(self.placement, owner, invocation);
                let is_held = needed <= u128::from(window.length);
                !(lies_in(invocation.s.0, invocation.e.0, window) && is_held)
            }
        }
    }
}
